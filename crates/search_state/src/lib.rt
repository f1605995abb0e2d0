//! What a search keeps: the trail with the place of each variable on it, which clauses watch which
//! literals, and a shelf of the entries that were set aside.
#![tactic(auto)]

mod beginning;
mod placed;
mod propagation;
mod shelf;
mod watches;

pub use beginning::{NO_LITERAL, Standing, standing_of};
pub use placed::PlacedTrail;
pub use shelf::{Card, Shelf};
pub use watches::{Pair, Watcher, Watches};
