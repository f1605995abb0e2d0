//! Numbers in place of names, in values: expressions and formulas.
#![tactic(auto)]

mod expressions;
mod formulas;
mod frame;
mod values;

pub use expressions::{ArgumentTrees, Typed, expression, number};
pub use formulas::{formula, instance, invariants, joined, parts_of, side_contracts};
pub use frame::Frame;
pub use values::{FieldPlace, access, number_in, shape_of, small};
