//! Reads expressions, formulas and simple statements, each from the tokens that stand first.
//!
//! One function for each rule of the grammar, each with one clause: what a part of the reading
//! leaves to do is what its plan leaves to do. What the plans take is said by `c0_grammar`.
#![tactic(auto)]

mod built;
mod expressions;
mod formulas;
mod macros;
mod simple;

pub use built::{Found, deeper};
pub use expressions::expression;
pub use formulas::{notes_of, stated};
pub use simple::{first_of_simple, optional_simple, simple_of};
