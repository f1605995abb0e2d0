//! The tree of a program that is built, in which names are not yet resolved.

ghost use Rattle.std.specs.Prelude.{◌≡◌};
ghost use Rattle.built_text.specs.declared.tree.ReadFault.TheVariants.{Memory};
ghost use Rattle.built_text.specs.Tree.{spot_of};
ghost use Rattle.built_text.specs.Views.{expr_view};

use gc0_base::{Place, Word};
use sqlite_items::{Boxed, Items};
use std::alloc::{AllocError, AllocFailed};

/// A type that a program can name.
#[derive(Clone, Copy, Debug, PartialEq, Eq)]
pub enum Shape {
    Int,
    Bool,
}

/// A type, and the place of its word.
#[derive(Clone, Copy, Debug, PartialEq, Eq)]
pub struct Typed {
    pub shape: Shape,
    pub place: Place,
}

/// A name, in bytes, and the place of its first byte.
#[derive(Debug, Drop)]
pub struct Named {
    pub name: Items<u8>,
    pub place: Place,
}

/// An operator before its one operand.
#[derive(Clone, Copy, Debug, PartialEq, Eq)]
pub enum UnaryOperator {
    /// `!`
    Not,
    /// `-`
    Negate,
}

/// An operator between its two operands.
#[derive(Clone, Copy, Debug, PartialEq, Eq)]
pub enum Operator {
    Mul,
    Add,
    Sub,
    Less,
    LessEq,
    Greater,
    GreaterEq,
    Equal,
    NotEqual,
}

/// Where an expression stands.
#[derive(Clone, Copy, Debug, PartialEq, Eq)]
pub struct Spot {
    /// The place of its operator, and else of its first token. Parentheses do not count.
    pub place: Place,
    /// The place of its first token. Parentheses round the expression count.
    pub first: Place,
}

/// An expression. The `!`, `-` and `(` of one that was read nest at most `Limits::NESTING` deep.
#[derive(Drop)]
pub enum Expr {
    Number(Spot, Word),
    Truth(Spot, bool),
    /// A local, by its name.
    Local(Spot, Items<u8>),
    /// `\result`. One that was read stands in an `ensures`.
    Outcome(Spot),
    Unary(Spot, UnaryOperator, Boxed<Expr>),
    Binary(Spot, Operator, Boxed<Expr>, Boxed<Expr>),
}

impl Expr {
    /// Where the expression stands.
    pub fn spot(&self) -> Spot
        ensures { result ≡ spot_of (expr_view self.now) }
    {
        match self {
            Expr::Number(spot, _) => *spot,
            Expr::Truth(spot, _) => *spot,
            Expr::Local(spot, _) => *spot,
            Expr::Outcome(spot) => *spot,
            Expr::Unary(spot, _, _) => *spot,
            Expr::Binary(spot, _, _, _) => *spot,
        }
    }
}

/// A call of a function, at the place of its name. No library call is one.
#[derive(Drop)]
pub struct Call {
    pub name: Named,
    pub arguments: Items<Expr>,
}

/// What is assigned.
#[derive(Drop)]
pub enum Right {
    Value(Expr),
    Call(Call),
}

/// A formula: whether it begins with `?`, and its conjuncts. One that was read has a conjunct
/// or begins with `?`.
#[derive(Drop)]
pub struct Formula {
    pub imprecise: bool,
    pub conjuncts: Items<Expr>,
}

/// A formula in an annotation, and the place of the annotation's word.
#[derive(Drop)]
pub struct Note {
    pub place: Place,
    pub formula: Formula,
}

/// A statement. Its place is that of its first token, and in an annotation that of its word.
/// Lists of statements nest at most `Limits::NESTING` deep in a function that was read, its body
/// included.
#[derive(Drop)]
pub enum Stmt {
    /// `int x = r;`
    Declare {
        typed: Typed,
        name: Named,
        /// The place of `=`.
        equals: Place,
        right: Right,
    },
    /// `x = r;`
    Assign {
        name: Named,
        /// The place of `=`.
        equals: Place,
        right: Right,
    },
    /// `f(a, b);`
    Call(Call),
    /// `printint(e);` for `Int`, `printbool(e);` for `Bool`.
    Print {
        place: Place,
        shape: Shape,
        value: Expr,
    },
    /// `return e;`
    Return {
        place: Place,
        value: Expr,
    },
    /// `if (e) { .. } else { .. }`. Without an `else`, `otherwise` is empty.
    If {
        place: Place,
        test: Expr,
        body: Items<Stmt>,
        otherwise: Items<Stmt>,
    },
    /// `while (e)`, its `loop_invariant`s in order, and `{ .. }`.
    While {
        place: Place,
        test: Expr,
        invariants: Items<Note>,
        body: Items<Stmt>,
    },
    /// `//@assert f;`
    Assert(Note),
}

/// Which side of a function's contract a clause belongs to.
#[derive(Clone, Copy, Debug, PartialEq, Eq)]
pub enum ClauseKind {
    Requires,
    Ensures,
}

/// A clause of a function's contract.
#[derive(Drop)]
pub struct Clause {
    pub kind: ClauseKind,
    pub note: Note,
}

/// A parameter of a function.
#[derive(Debug, Drop)]
pub struct Parameter {
    pub typed: Typed,
    pub name: Named,
}

/// A function.
#[derive(Drop)]
pub struct Function {
    /// The type of its result.
    pub typed: Typed,
    pub name: Named,
    pub parameters: Items<Parameter>,
    /// The clauses in the order of the text.
    pub contract: Items<Clause>,
    /// The statements. In a function that was read the last one is a `Return`.
    pub body: Items<Stmt>,
    /// The place of the closing brace.
    pub close: Place,
}

/// A program: its functions in the order of the text.
#[derive(Drop)]
pub struct Program {
    pub functions: Items<Function>,
}

/// Why a text was not read.
#[derive(Clone, Copy, Debug, PartialEq, Eq)]
pub enum ReadFault {
    /// The text is none of the grammar; here stands the first token that, with those before
    /// it, begins no text of the grammar.
    NotBuilt(Place),
    /// There was not memory enough.
    Memory,
}

impl From<AllocError> for ReadFault {
    ghost from_gives = { λ _ e. e ≡ Memory };

    fn from(_: AllocError) -> Self {
        ReadFault::Memory
    }
}

impl<T: Drop> From<AllocFailed<T>> for ReadFault {
    ghost from_gives = { λ _ e. e ≡ Memory };

    fn from(_: AllocFailed<T>) -> Self {
        ReadFault::Memory
    }
}
