//! Prints formulas over numbers, with the names of a program, in the layout of `c0_layout`
//! (the formulas of Gradual C0).
#![tactic(auto)]

mod formulas;
mod names;
mod scope;

pub use formulas::{print_conjunct, print_formula};
pub use scope::Scope;
