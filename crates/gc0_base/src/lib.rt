//! What every crate of the compiler speaks of: words, places in a text, the sites of a
//! program, how a run ends, and the limits of the project.
//!
//! Nothing here takes memory.
#![tactic(auto)]

mod limits;
mod place;
mod site;
mod word;

pub use limits::Limits;
pub use place::Place;
pub use site::{Decision, Ending, Kind, Part, Site, TrapKind};
pub use word::Word;
