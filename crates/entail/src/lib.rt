//! Deciders: whether a claim about words follows from facts, with what shows it.
//!
//! A question is of terms of `word_terms`: does each valuation that makes all facts true make
//! the claim true? `Plain` makes clauses of the facts and of the claim's opposite, and searches
//! for an assignment that satisfies them. Such an assignment is a counterexample, and a
//! refutation that `sat_check` has checked says that there is none. Nobody has to trust the
//! search.
#![tactic(auto)]

mod answer;
mod decider;
mod plain;
mod trivial;

pub use answer::Answer;
pub use decider::Decider;
pub use plain::Plain;
pub use trivial::is_trivial;

#[cfg(test)]
mod tests;
