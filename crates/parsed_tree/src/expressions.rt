//! Names, types and expressions.

ghost use Rattle.std.specs.Prelude.{◌≡◌};
ghost use Rattle.parsed_tree.specs.Tree.{spot_of};
ghost use Rattle.parsed_tree.specs.Views.{expr_view};

use gc0_base::{Place, Word};
use sqlite_items::{Boxed, Items};

/// A name, in bytes, and the place of its first byte.
#[derive(Debug, Drop)]
pub struct Named {
    pub name: Items<u8>,
    pub place: Place,
}

/// The bytes that a string literal stands for, and the place of its opening `"`.
#[derive(Debug, Drop)]
pub struct Text {
    pub bytes: Items<u8>,
    pub place: Place,
}

/// A type without its `*`.
#[derive(Debug, Drop)]
pub enum Base {
    Int,
    Bool,
    /// `struct` and the struct's name.
    Struct(Named),
    /// The name of a `typedef`.
    Alias(Items<u8>),
}

/// A type.
#[derive(Debug, Drop)]
pub struct TypeName {
    /// The place of its first token.
    pub place: Place,
    pub base: Base,
    /// How many `*` follow the base.
    pub stars: u32,
}

/// An operator before its one operand.
#[derive(Clone, Copy, Debug, PartialEq, Eq)]
pub enum UnaryOperator {
    /// `-`
    Negate,
    /// `~`
    Not,
    /// `!`
    Flip,
}

/// An operator between its two operands.
#[derive(Clone, Copy, Debug, PartialEq, Eq)]
pub enum Operator {
    /// `*`
    Mul,
    /// `/`
    Div,
    /// `%`
    Rem,
    /// `+`
    Add,
    /// `-`
    Sub,
    /// `<<`
    Shl,
    /// `>>`
    Shr,
    /// `<`
    Less,
    /// `<=`
    LessEq,
    /// `>`
    Greater,
    /// `>=`
    GreaterEq,
    /// `==`
    Equal,
    /// `!=`
    NotEqual,
    /// `&`
    And,
    /// `^`
    Xor,
    /// `|`
    Or,
    /// `&&`
    Both,
    /// `||`
    Either,
}

/// Where an expression stands.
#[derive(Clone, Copy, Debug, PartialEq, Eq)]
pub struct Spot {
    /// The place of its operator, of its `->`, of its called name or of its `?`, and else of its
    /// first token. Parentheses round the expression do not count.
    pub place: Place,
    /// The place of its first token. Parentheses round the expression count.
    pub first: Place,
}

/// An expression of the code or of a formula.
#[derive(Drop)]
pub enum Expr {
    /// A literal number.
    Number(Spot, Word),
    /// `true` or `false`.
    Truth(Spot, bool),
    /// `NULL`.
    Null(Spot),
    /// A local, by its name.
    Local(Spot, Items<u8>),
    /// `\result`. One that was read stands in a formula.
    Outcome(Spot),
    Unary(Spot, UnaryOperator, Boxed<Expr>),
    Binary(Spot, Operator, Boxed<Expr>, Boxed<Expr>),
    /// `a ? b : c`.
    Choose(Spot, Boxed<Expr>, Boxed<Expr>, Boxed<Expr>),
    /// `e->f`.
    Arrow(Spot, Boxed<Expr>, Named),
    /// A call of the code, or an instance of a predicate in a formula.
    Call(Spot, Items<u8>, Items<Expr>),
    /// A call with a string literal. One that was read stands in the code.
    CallText(Spot, Items<u8>, Text),
    /// `alloc(T)`. One that was read stands in the code.
    Alloc(Spot, TypeName),
    /// `acc(path->f)`: the path, the place of the `->`, and the field. One that was read stands
    /// in a formula.
    Acc(Spot, Boxed<Expr>, Place, Named),
}

impl Expr {
    /// Where the expression stands.
    pub fn spot(&self) -> Spot
        ensures { result ≡ spot_of (expr_view self.now) }
    {
        match self {
            Expr::Number(spot, _) => *spot,
            Expr::Truth(spot, _) => *spot,
            Expr::Null(spot) => *spot,
            Expr::Local(spot, _) => *spot,
            Expr::Outcome(spot) => *spot,
            Expr::Unary(spot, _, _) => *spot,
            Expr::Binary(spot, _, _, _) => *spot,
            Expr::Choose(spot, _, _, _) => *spot,
            Expr::Arrow(spot, _, _) => *spot,
            Expr::Call(spot, _, _) => *spot,
            Expr::CallText(spot, _, _) => *spot,
            Expr::Alloc(spot, _) => *spot,
            Expr::Acc(spot, _, _, _) => *spot,
        }
    }
}
