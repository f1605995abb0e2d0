//! The typing rules of a text of C0: its statements, contracts and items, and the violation of
//! them that comes first in the text. Those of values stand in `c0_value_rules`.
#![tactic(auto)]

mod ensured;
mod items;
mod statements;

pub use c0_value_rules::{Rule, TypeFault, Violation, fault_at};
pub use items::{least_violation, least_violation_by};
