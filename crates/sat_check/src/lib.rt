//! Clauses, logs of their refutations, and the checker that a refutation has to pass.
//!
//! A set of clauses is that of the DIMACS CNF format. A log is a proof in the LRAT format
//! (Cruz-Filipe, Heule, Hunt, Kaufmann and Schneider-Kamp, "Efficient Certified RAT
//! Verification", 2017) without its RAT steps and its deletions: each entry is a clause with
//! hints that lead by unit propagation from its negation to a clause that is false. Whoever
//! wrote the log isn't trusted: that a log is found `Refuted` means that no assignment
//! satisfies the clauses.
#![tactic(auto)]

mod cause;
mod checker;
mod clause;
mod laws;
mod log;
mod valuation;

pub use cause::Cause;
pub use checker::{Scratch, Verdict, check, named};
pub use clause::{Clause, Lit, Lits, are_below};
pub use laws::refutation_is_sound;
pub use log::{Entries, Entry, Hints, Log};

#[cfg(test)]
mod tests;
