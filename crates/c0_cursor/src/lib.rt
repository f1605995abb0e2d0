//! The cursor over the tokens of a text: what stands first, names, types and operators.
//!
//! Each function that reads has one clause for what it reads: what it leaves to do is what its plan
//! leaves to do. What the plans take is said by `c0_grammar`.
#![tactic(auto)]

mod cursor;
mod fault;
mod macros;
mod marks;
mod names;
mod operators;
mod types;

pub use cursor::{
    NOWHERE, any_name, begins, begins_string, expect, free_name, library, remaining, string,
};
pub use fault::Stop;
pub use marks::Mark;
pub use names::Names;
pub use operators::{Mode, operator_of_rank, step_at, update_at};
pub use types::{begins_type, behind_base, type_name};
