//! Reads the tokens of a text of C0 into its tree, or names its first fault.
//!
//! One function for each rule of the grammar, each with one clause: what a part of the reading
//! leaves to do is what its plan leaves to do. What the plans take is said by `c0_grammar`.
#![tactic(auto)]

mod items;
mod loops;
mod macros;
mod made;
mod reader;
mod statements;

pub use parse_faults::ParseFault;
pub use reader::parse;
