//! The devices of the system behind the traits of `gc0_io`: files with a limit, a source of
//! bytes, a sink for bytes; and the words that a program was called with. What they hold, give
//! and take is not told; how often they failed is counted.
#![tactic(auto)]

mod files;
mod streams;
mod words;

pub use files::RealFiles;
pub use streams::{Input, Output};
pub use words::{WordsFault, words_of};
