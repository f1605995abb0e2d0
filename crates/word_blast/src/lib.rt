//! Terms as clauses: a circuit of gates for each operator, and what its clauses say.
#![tactic(auto)]

mod blasted;
mod builder;
mod gate;
mod groups;
mod laws;
mod query;

pub use blasted::Input;
pub use gate::Gate;
pub use laws::circuits_are_below;
pub use query::{BlastRefusal, Clauses, Query, blast, valuation_of};
