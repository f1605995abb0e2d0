//! Heads, contracts, items and whole texts.

use crate::expressions::{Expr, Named, TypeName};
use crate::statements::{Formula, Stmt};
use gc0_base::Place;
use sqlite_items::Items;

/// A library that a text may name. Its calls are known without it.
#[derive(Clone, Copy, Debug, PartialEq, Eq)]
pub enum Library {
    Conio,
    Intio,
}

/// A field of a struct.
#[derive(Debug, Drop)]
pub struct Field {
    pub typed: TypeName,
    pub name: Named,
}

/// A parameter of a function or predicate.
#[derive(Debug, Drop)]
pub struct Param {
    pub typed: TypeName,
    pub name: Named,
}

/// What a function gives.
#[derive(Debug, Drop)]
pub enum ResultType {
    /// `void`, at its place.
    Void(Place),
    Typed(TypeName),
}

/// The head of a function or prototype.
#[derive(Debug, Drop)]
pub struct Head {
    pub result: ResultType,
    pub name: Named,
    pub params: Items<Param>,
}

/// Which side of a function's contract a clause belongs to.
#[derive(Clone, Copy, Debug, PartialEq, Eq)]
pub enum Side {
    Requires,
    Ensures,
}

/// A clause of a function's contract, at the place of its word.
#[derive(Drop)]
pub struct Clause {
    pub place: Place,
    pub side: Side,
    pub formula: Formula,
}

/// An annotation behind the head of a function, at the place of its opening.
#[derive(Drop)]
pub struct Contract {
    pub place: Place,
    pub clauses: Items<Clause>,
}

/// `predicate p(..) = parts;`, at the place of its word.
#[derive(Drop)]
pub struct PredicateText {
    pub place: Place,
    pub name: Named,
    pub params: Items<Param>,
    pub body: Expr,
}

/// What stands at the top of a text. Its place is that of its first token.
#[derive(Drop)]
pub enum Item {
    /// `struct s;`
    StructName {
        place: Place,
        name: Named,
    },
    /// `struct s { .. };`
    Struct {
        place: Place,
        name: Named,
        fields: Items<Field>,
    },
    /// `typedef T t;`
    Typedef {
        place: Place,
        typed: TypeName,
        name: Named,
    },
    /// A head that ends with `;`.
    Prototype {
        head: Head,
        contract: Items<Contract>,
    },
    Function {
        head: Head,
        contract: Items<Contract>,
        body: Items<Stmt>,
        /// The place of the closing brace.
        close: Place,
    },
    /// An annotation with the predicates that it defines.
    Predicates {
        place: Place,
        predicates: Items<PredicateText>,
    },
}

/// A text of C0.
#[derive(Drop)]
pub struct Parsed {
    /// The libraries of its `#use` lines, in order.
    pub uses: Items<Library>,
    pub items: Items<Item>,
}
