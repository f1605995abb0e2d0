//! The tests of the lowering, of public calls alone, from a text to its core. They stand apart, so that the crates that
//! they try aren't proved a second time for them.
#![tactic(auto)]

#[cfg(test)]
mod cores;
