//! The tests of what is printed of programs and formulas, of public calls alone. They stand apart, so that the crates
//! that they try aren't proved a second time for them.
#![tactic(auto)]

#[cfg(test)]
mod printing;
