//! The heap of a running program, and which of its cells the running level owns.
//!
//! A read, a write and the question of ownership take no memory. The words of all objects lie in
//! one array, and the levels keep a stamp for each word.
#![tactic(auto)]

ghost use Rattle.owned_heap.specs.LevelSets.{made_law};
ghost use Rattle.owned_heap.specs.Stands.{members_law, in_heap_law};

mod heap;
mod levels;
mod stamps;

pub use heap::{Cell, Heap};
pub use levels::Levels;

/// What a level adopts are the cells of the heap whose objects have greater numbers. It holds of
/// the definition, so the function does nothing.
pub fn adopts_what_was_made()
    ensures { made_law }
{}

/// What levels stand for is a matter of the members of the sets alone.
pub fn members_count_alone()
    ensures { members_law }
{}

/// Each cell that a level owns is a cell of the heap.
pub fn owned_cells_are_of_the_heap()
    ensures { in_heap_law }
{}

#[cfg(test)]
mod tests;
