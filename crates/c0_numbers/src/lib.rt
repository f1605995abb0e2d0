//! Numbers in place of names: the resolved tree of a text of C0. Those of values are made in
//! `c0_value_numbers`.
#![tactic(auto)]

mod program;
mod statements;
mod targets;

pub use program::{numbered, numbered_by};
pub use targets::Target;
