//! The resolved tree of a program: numbers in place of names, and a place at each part.
//!
//! `Items<T>` and `Boxed<T>` stand for `Vec<T>` and `Box<T>`: contracts see them as lists and as
//! values, so that trees can be compared.
#![tactic(auto)]

mod calls;
mod numbers;
mod places;
mod tokens;

use gc0_base::{Place, Word};
pub use numbers::SiteNumbers;
pub use places::place_of;
use sqlite_items::{Boxed, Items};

/// The type of a local, a parameter, a field or a result.
#[derive(Clone, Copy, Debug, PartialEq, Eq)]
pub enum Shape {
    /// A word of 32 bits.
    Int,
    /// A truth: the word 0 or 1.
    Bool,
    /// A pointer to a struct of this number.
    Pointer(u32),
    /// What `NULL` alone has: it fits every pointer.
    Null,
}

/// An operator before its one operand.
#[derive(Clone, Copy, Debug, PartialEq, Eq)]
pub enum UnaryOp {
    /// `-`
    Neg,
    /// `~`
    Not,
    /// `!`
    Flip,
}

/// An operator between its two operands, both of which are evaluated.
#[derive(Clone, Copy, Debug, PartialEq, Eq)]
pub enum ExprOp {
    /// `+`
    Add,
    /// `-`
    Sub,
    /// `*`
    Mul,
    /// `/`
    Div,
    /// `%`
    Rem,
    /// `<<`
    Shl,
    /// `>>`
    Shr,
    /// `&`
    And,
    /// `|`
    Or,
    /// `^`
    Xor,
    /// `<`
    Less,
    /// `<=`
    LessEq,
    /// `>`
    Greater,
    /// `>=`
    GreaterEq,
    /// `==`
    Equal,
    /// `!=`
    NotEqual,
}

/// The calls of `conio` and `intio`, which are always known.
#[derive(Clone, Copy, Debug, PartialEq, Eq)]
pub enum LibraryCall {
    /// `printint(int)` writes the decimal number.
    PrintInt,
    /// `printbool(bool)` writes `true` or `false`.
    PrintBool,
    /// `print("t")` writes the text.
    Print,
    /// `println("t")` writes the text and a newline byte.
    PrintLine,
    /// `readint()` gives the next number of the input.
    ReadInt,
    /// `moreint()` tells whether a number of the input is left.
    MoreInt,
}

/// An expression.
#[cycle(expr)]
#[derive(Drop)]
pub struct Expr {
    /// The place of its operator, of its `->` or of its called name, and else of its first token.
    /// `&&`, `||` and the `?` of `?:` are such operators.
    pub place: Place,
    /// What it is.
    pub form: ExprForm,
}

/// What an expression is.
#[cycle(expr)]
#[derive(Drop)]
pub enum ExprForm {
    /// A literal number.
    Number(Word),
    /// `true` or `false`.
    Truth(bool),
    /// `NULL`.
    Null,
    /// A local by its number. The parameters come first.
    Local(u32),
    /// `\result`.
    ResultValue,
    /// An operator and its operand.
    Unary(UnaryOp, Boxed<Expr>),
    /// An operator and its operands, the left one first.
    Binary(ExprOp, Boxed<Expr>, Boxed<Expr>),
    /// `a && b`.
    Both(Boxed<Expr>, Boxed<Expr>),
    /// `a || b`.
    Either(Boxed<Expr>, Boxed<Expr>),
    /// `a ? b : c`.
    Choose(Boxed<Expr>, Boxed<Expr>, Boxed<Expr>),
    /// `base->f`.
    Read {
        /// The pointer.
        base: Boxed<Expr>,
        /// The number of the struct that it points to.
        of_struct: u32,
        /// The number of the field in that struct.
        field: u32,
    },
    /// A call of a function of the program.
    Call {
        /// The number of the function.
        function: u32,
        /// One for each parameter.
        arguments: Items<Expr>,
    },
    /// A library call.
    Library {
        /// Which one.
        call: LibraryCall,
        /// What `printint` and `printbool` write.
        argument: Option<Boxed<Expr>>,
        /// The number of the text that `print` and `println` write.
        text: Option<u32>,
    },
    /// `alloc` of the struct of this number.
    Alloc(u32),
}

/// A contract, an invariant, or what an annotation states.
#[derive(Drop)]
pub struct Formula {
    /// Whether it has a `?`. A clause that is absent has one.
    pub imprecise: bool,
    /// Its conjuncts in reading order.
    pub parts: Items<Conjunct>,
}

/// One conjunct of a formula.
#[derive(Drop)]
pub enum Conjunct {
    /// An expression that is to be true.
    Value(Expr),
    /// `acc(path->f)`: the path and the number of the field.
    Acc(Expr, u32),
    /// An instance: the place of the predicate's name, its number, and the arguments.
    Instance(Place, u32, Items<Expr>),
    /// `c ? A : B`: the place of the `?` (or of the `||` that stands for it), the condition, and
    /// the conjuncts of both branches.
    Choice(Place, Expr, Items<Conjunct>, Items<Conjunct>),
}

/// What an annotation among the statements states.
#[derive(Drop)]
pub enum Note {
    /// `assert F;`
    Assert(Formula),
    /// `fold p(..);`: the formula is that instance alone.
    Fold(Formula),
    /// `unfold p(..);`: the formula is that instance alone.
    Unfold(Formula),
}

/// A statement.
#[cycle(stmt)]
#[derive(Drop)]
pub struct Stmt {
    /// The place of its first token, and in an annotation of its word.
    pub place: Place,
    /// What it is.
    pub form: StmtForm,
}

/// What a statement is.
#[cycle(stmt)]
#[derive(Drop)]
pub enum StmtForm {
    /// A declaration, with a value or without one.
    Declare {
        /// The number of the local.
        local: u32,
        /// What it is set to.
        value: Option<Expr>,
    },
    /// `x = e`, or `x op= e`; `x++` adds the number 1.
    Assign {
        /// The number of the local.
        local: u32,
        /// The operator of `op=`.
        op: Option<ExprOp>,
        /// The place of the assignment's operator.
        op_place: Place,
        /// The right side.
        value: Expr,
    },
    /// `base->f = e`, or `base->f op= e`.
    Write {
        /// The pointer.
        base: Expr,
        /// The number of the struct that it points to.
        of_struct: u32,
        /// The number of the field in that struct.
        field: u32,
        /// The place of the `->` that makes the access.
        arrow: Place,
        /// The operator of `op=`.
        op: Option<ExprOp>,
        /// The place of the assignment's operator.
        op_place: Place,
        /// The right side.
        value: Expr,
    },
    /// An expression whose value is dropped.
    Plain(Expr),
    /// `{ .. }`.
    Block(Items<Stmt>),
    /// `if (c) s` or `if (c) s else t`.
    If {
        /// What is tested.
        condition: Expr,
        /// Where it is true.
        yes: Boxed<Stmt>,
        /// Where it is false.
        no: Option<Boxed<Stmt>>,
    },
    /// `while (c) s`.
    While {
        /// Holds at each head.
        invariant: Formula,
        /// What is tested at each head.
        test: Expr,
        /// What is done in each turn.
        body: Boxed<Stmt>,
    },
    /// `for (a; c; b) s`.
    For {
        /// What is done first.
        first: Option<Boxed<Stmt>>,
        /// What is tested at each head.
        test: Expr,
        /// What ends each turn.
        last: Option<Boxed<Stmt>>,
        /// Holds at each head.
        invariant: Formula,
        /// What is done in each turn.
        body: Boxed<Stmt>,
    },
    /// `return`, with a value or without one.
    Return(Option<Expr>),
    /// `assert(e);` of the code.
    Assert(Expr),
    /// `error("t");`, by the number of its text.
    Raise(u32),
    /// An annotation.
    Note(Note),
}

/// A struct with its fields, the first of which has the number 0.
#[derive(Drop)]
pub struct Struct {
    /// Its name.
    pub name: Items<u8>,
    /// The names and shapes of its fields.
    pub fields: Items<(Items<u8>, Shape)>,
}

/// A predicate, which stands for its body.
#[derive(Drop)]
pub struct Predicate {
    /// Its name.
    pub name: Items<u8>,
    /// The names and shapes of its parameters.
    pub params: Items<(Items<u8>, Shape)>,
    /// The conjuncts of its body; they speak of the parameters by number.
    pub body: Items<Conjunct>,
}

/// A function.
#[derive(Drop)]
pub struct Function {
    /// Its name.
    pub name: Items<u8>,
    /// The place of its name.
    pub place: Place,
    /// The place of its closing brace.
    pub close: Place,
    /// How many of the locals are parameters: the first ones.
    pub params: u32,
    /// The names and shapes of its locals, by number.
    pub locals: Items<(Items<u8>, Shape)>,
    /// The shape of its result, where it has one.
    pub result: Option<Shape>,
    /// Its `requires` clauses, joined. They speak of the parameters.
    pub before: Formula,
    /// Its `ensures` clauses, joined. They speak of the parameters and of `\result`.
    pub after: Formula,
    /// Its statements.
    pub body: Items<Stmt>,
}

/// A whole program.
#[derive(Drop)]
pub struct Program {
    /// The structs by number.
    pub structs: Items<Struct>,
    /// The predicates by number.
    pub predicates: Items<Predicate>,
    /// The functions by number.
    pub functions: Items<Function>,
    /// The number of the function `main`.
    pub main: u32,
    /// The texts of the string literals by number.
    pub texts: Items<Items<u8>>,
}
