//! Which formulas hold in the owned cells, and with which footprint.
//!
//! A formula is walked by a stack of frames: no predicate is unrolled by a call, so that one may
//! lie as deep as the heap goes.
#![tactic(auto)]

mod taken;
mod values;
mod walk;
mod walker;

pub use walker::{Walker, is_true};
