//! The instructions of the stack machine, and the code of a program.
#![tactic(auto)]

mod buffer;
mod emit;
mod instr;
mod within;

pub use emit::generate;
pub use instr::{Code, FunctionCode, Instr, Words};
