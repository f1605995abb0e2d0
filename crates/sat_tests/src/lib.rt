//! Tests of `sat_top` by its public call alone: formulas, bad files, words, and each device failing once.
#![tactic(auto)]

#[cfg(test)]
mod answers;
#[cfg(test)]
mod memory;
