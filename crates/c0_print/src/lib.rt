//! Prints programs of C0 in the layout of `c0_layout`. What is printed of a program is read again
//! as the same program.
#![tactic(auto)]

mod expressions;
mod items;
mod laws;
mod lexing;
mod statements;
mod types;

pub use items::print_program;
pub use laws::{reads_anywhere, writes_again, writes_good, writes_no_deeper, writes_tree};
pub use lexing::{prints_tokens, reads_back};
