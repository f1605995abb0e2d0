//! The search of `sat_search` in its plain form: the clauses of a literal are all looked at when it
//! becomes false, and what a conflict teaches is said by decisions. It does what `search` does,
//! under the same contract, in fewer words and more time.
#![tactic(auto)]

mod occurrences;
mod propagation;
mod running;
mod searching;
mod solver;

pub use searching::plain_search;
