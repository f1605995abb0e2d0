//! Laws of walks: a stack of frames does what the recursion of `holds` and of `is_separate` does, step
//! by step, and ends. They hold of the definitions, so the functions do nothing.
#![tactic(auto)]

ghost use Rattle.walk_laws.specs.Walks.{stack_law, strict_law, loose_law, all_cells_law};
ghost use Rattle.walk_laws.specs.SameCells.{same_value_law, same_values_law, same_take_law, same_holds_law, same_separate_law};

/// In a guarded program one step on a stack of frames keeps what the frames give, and lowers the
/// number of the steps that they take.
#[inline]
pub fn stack_walks()
    ensures { stack_law }
{}

/// The frame of a formula gives its footprint, and says whether its conjuncts are separate.
#[inline]
pub fn walks_by_mode()
    ensures strict { strict_law }
    ensures loose { loose_law }
{}

/// The cells of a heap are those that have a word.
#[inline]
pub fn cells_of_heap()
    ensures { all_cells_law }
{}

/// What formulas say depends on the owned cells by their members alone: two sets with the same cells
/// of the heap give the same.
#[inline]
pub fn sets_by_members()
    ensures value { same_value_law }
    ensures values { same_values_law }
    ensures take { same_take_law }
    ensures holds { same_holds_law }
    ensures separate { same_separate_law }
{}
