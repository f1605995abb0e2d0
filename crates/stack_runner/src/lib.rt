//! Runs the code of the stack machine.
#![tactic(auto)]

mod act;
mod built;
mod formulas;
mod instrs;
mod machine;
mod outputs;
mod state;

pub use act::RunFault;
pub use built::built_programs_have_built_code;
pub use machine::Machine;
