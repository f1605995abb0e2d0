//! The lowering of a program to its core.
#![tactic(auto)]

mod fault;
mod functions;
mod loops;
mod lowering;
mod notes;
mod simple;
mod statements;
mod steps;
mod whole;
mod writes;

pub use fault::LowerFault;
pub use lowering::lower;
