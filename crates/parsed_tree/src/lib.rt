//! The tree of a text of C0: a node for each rule of the grammar, with the place of each part.
//! Names stand for themselves here; the resolved tree of `gc0_tree` has numbers in their place.
//!
//! A pair of parentheses has no node, but each expression keeps the place of its first token,
//! parentheses counted. `Items<T>` and `Boxed<T>` stand for `Vec<T>` and `Box<T>`.
#![tactic(auto)]

mod expressions;
mod items;
mod statements;

pub use expressions::{Base, Expr, Named, Operator, Spot, Text, TypeName, UnaryOperator};
pub use items::{
    Clause, Contract, Field, Head, Item, Library, Param, Parsed, PredicateText, ResultType, Side,
};
pub use statements::{
    Formula, Instance, Invariant, Invariants, Note, NoteForm, Simple, StepOperator, Stmt,
    UpdateOperator,
};
