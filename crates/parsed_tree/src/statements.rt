//! Formulas, annotations and statements.

use crate::expressions::{Expr, Named, Text, TypeName};
use gc0_base::Place;
use sqlite_items::{Boxed, Items};

/// A formula: whether it begins with `?`, and what stands behind it or alone. One that was read
/// has parts or begins with `?`.
#[derive(Drop)]
pub struct Formula {
    pub imprecise: bool,
    pub parts: Option<Expr>,
}

/// An instance of a predicate, as `fold` and `unfold` have it.
#[derive(Drop)]
pub struct Instance {
    pub name: Named,
    pub arguments: Items<Expr>,
}

/// What a clause among the statements states.
#[derive(Drop)]
pub enum NoteForm {
    /// `assert F;`
    Assert(Formula),
    /// `fold p(..);`
    Fold(Instance),
    /// `unfold p(..);`
    Unfold(Instance),
}

/// A clause of an annotation among the statements, at the place of its word.
#[derive(Drop)]
pub struct Note {
    pub place: Place,
    pub form: NoteForm,
}

/// `loop_invariant F;`, at the place of its word.
#[derive(Drop)]
pub struct Invariant {
    pub place: Place,
    pub formula: Formula,
}

/// An annotation behind the head of a loop, at the place of its opening.
#[derive(Drop)]
pub struct Invariants {
    pub place: Place,
    pub clauses: Items<Invariant>,
}

/// The operator of `+=` and its like.
#[derive(Clone, Copy, Debug, PartialEq, Eq)]
pub enum UpdateOperator {
    Add,
    Sub,
    Mul,
    Div,
    Rem,
    And,
    Xor,
    Or,
    Shl,
    Shr,
}

/// `++` or `--`.
#[derive(Clone, Copy, Debug, PartialEq, Eq)]
pub enum StepOperator {
    Increment,
    Decrement,
}

/// A statement that needs a `;`, or a part of a `for`.
#[derive(Drop)]
pub enum Simple {
    /// `T x` or `T x = e`, with the place of the `=`.
    Declare {
        typed: TypeName,
        name: Named,
        value: Option<(Place, Expr)>,
    },
    /// `e = e` or `e op= e`, with the place of that operator. In one that was read the target is
    /// a local or ends with `->`.
    Assign {
        target: Expr,
        place: Place,
        operator: Option<UpdateOperator>,
        value: Expr,
    },
    /// `e++` or `e--`, with the place of that operator and the same target.
    Step {
        target: Expr,
        place: Place,
        operator: StepOperator,
    },
    Plain(Expr),
}

/// A statement. Its place is that of its first token.
#[derive(Drop)]
pub enum Stmt {
    Simple(Simple),
    Block {
        place: Place,
        body: Items<Stmt>,
    },
    If {
        place: Place,
        test: Expr,
        yes: Boxed<Stmt>,
        no: Option<Boxed<Stmt>>,
    },
    While {
        place: Place,
        test: Expr,
        invariants: Items<Invariants>,
        body: Boxed<Stmt>,
    },
    For {
        place: Place,
        first: Option<Boxed<Simple>>,
        test: Expr,
        last: Option<Boxed<Simple>>,
        invariants: Items<Invariants>,
        body: Boxed<Stmt>,
    },
    Return {
        place: Place,
        value: Option<Expr>,
    },
    /// `assert(e);`
    Assert {
        place: Place,
        test: Expr,
    },
    /// `error("t");`
    Error {
        place: Place,
        text: Text,
    },
    /// An annotation with its clauses in order.
    Notes {
        place: Place,
        clauses: Items<Note>,
    },
}
