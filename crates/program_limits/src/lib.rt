//! How large the parts of a program may be.
#![tactic(auto)]

mod passed;
mod sizes;
mod temporaries;

pub use passed::Limit;
pub use sizes::limit_passed;
