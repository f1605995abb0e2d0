//! Tests of the searches and of the circuits, by their public calls alone.
#![tactic(auto)]

#[cfg(test)]
mod circuits;
#[cfg(test)]
mod ends;
#[cfg(test)]
mod table;
