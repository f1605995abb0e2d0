//! What the searches stand on: what a search finds, the trail of the literals that are false, what a
//! conflict teaches by decisions, and walks that try whether hints refute.
#![tactic(auto)]

mod analysis;
mod found;
mod laws;
mod trail;
mod walk;

pub use analysis::{Learned, analyze};
pub use found::{Found, Values, values_by};
pub use laws::{new_entries_are_few, stuck_is_solved};
pub use trail::{Reading, Slot, Step, Trail, open_variable, read};
