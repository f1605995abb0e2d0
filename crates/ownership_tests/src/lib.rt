//! The tests of what is owned, of public calls alone, from a text to the footprints of its formulas. They stand apart, so that
//! the crates that they try aren't proved a second time for them.
#![tactic(auto)]

#[cfg(test)]
mod footprints;
