//! The tests of the floors of the text, of public calls alone: its tokens, its tree, and whether it can be run. They
//! stand apart, so that the crates that they try aren't proved a second time for them.
#![tactic(auto)]

#[cfg(test)]
mod built;
#[cfg(test)]
mod lexical;
#[cfg(test)]
mod parsing;
