//! The texts of a solver: a formula in the DIMACS CNF format is read, and what was found is
//! written: values as the competition's `v` lines, a log as a proof in the LRAT format.
#![tactic(auto)]

mod formula;
mod laws;
mod limits;
mod log_text;
mod numerals;
mod reader;
mod reading;
mod values;
mod words;

pub use formula::{Clauses, Formula};
pub use laws::one_formula;
pub use limits::FormulaLimits;
pub use log_text::{push_entry, up_to_empty};
pub use reading::{TextFault, read};
pub use values::values_text;
