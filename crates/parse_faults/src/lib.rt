//! Why tokens are no program, and the first fault of a tree that was read.
//!
//! The two faults of a tree are no matter of its grammar: a contract at a prototype, and a read of
//! a formula in an operand that may not be evaluated. The parser looks for them once it has the tree.
#![tactic(auto)]

mod fault;
mod faults;

pub use fault::ParseFault;
pub use faults::first_fault;
