//! The typing rules of values: expressions and formulas, with the locals in scope, and the
//! violation of a rule that comes first.
#![tactic(auto)]

mod expressions;
mod formulas;
mod scope;
mod violation;

pub use expressions::{expression, local, require, value};
pub use formulas::{formula, invariants, notes, parts};
pub use scope::{Depth, Flow, Scope, Standing, joined};
pub use violation::{Rule, TypeFault, Violation, fault_at, report, report_unless};
