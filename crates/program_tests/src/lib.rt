//! The tests of the call that the program makes: what is written and answered for a text, its words and its devices.
//! They stand apart, so that `gradual_top` isn't proved a second time for them.
#![tactic(auto)]

#[cfg(test)]
mod faults;
#[cfg(test)]
mod framing;
#[cfg(test)]
mod limits;
#[cfg(test)]
mod running;
