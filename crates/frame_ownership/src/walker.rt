//! What formulas and their parts say over a heap and what is owned of it.

ghost use Rattle.std.specs.Prelude.{◌≡◌, [], List, Some, map, option_map, is_some, IfOk};
ghost use Rattle.gc0_tree.specs.Views.{expr_view, conjuncts_view, formula_view, predicate_view};
ghost use Rattle.c0_meaning.specs.Framing.{predicates_unguarded};
ghost use Rattle.c0_meaning.specs.Heaps.{Cells};
ghost use Rattle.c0_meaning.specs.Holds.{holds, value_in};
ghost use Rattle.core_meaning.specs.Choices.{is_so};
ghost use Rattle.core_checks.specs.Parts.{is_separate, access_says};
ghost use Rattle.owned_heap.specs.LevelSets.{top_of};
ghost use Rattle.owned_heap.specs.Stands.{Stands};
ghost use Rattle.owned_heap.specs.Views.{cell_view, heap_view};
ghost use Rattle.frame_ownership.specs.Frames.{if_found};
ghost use Rattle.frame_ownership.specs.Seen.{numbers};

use crate::values::{Mode, Sight, goes_past};
use crate::walk::Walk;
use gc0_base::Word;
use gc0_tree::{Conjunct, Expr, Formula, Predicate};
use owned_heap::{Cell, Heap, Levels};
use std::alloc::{AllocError, Global};
use walk_laws::{cells_of_heap, sets_by_members, walks_by_mode};

/// Walks formulas. It is kept from one walk to the next, so that they take no memory once there was
/// enough of it, and has the footprint of the last formula that held.
#[derive(Drop)]
pub struct Walker<'p> {
    walk: Walk<'p>,
}

impl<'p> Walker<'p> {
    ghost use Rattle.frame_ownership.specs.Footprints.{cells_of};

    /// A walker without a footprint. It takes no memory.
    pub fn new(alloc: Global) -> Walker<'p>
        ensures { cells_of result ≡ [] }
    {
        Walker {
            walk: Walk::new(alloc),
        }
    }

    /// The footprint of the last formula that held.
    pub fn cells(&self) -> &[Cell]
        ensures { map cell_view result.now ≡ cells_of self.now }
    {
        self.walk.taken.cells()
    }

    /// Whether a formula holds over some words in what the running level owns; its footprint is then
    /// that of the walker. A predicate may lie as deep as the heap goes: it is unrolled on a stack of
    /// the walker's own.
    ///
    /// Errors: there was not memory enough.
    pub fn footprint(
        &mut self,
        predicates: &'p [Predicate],
        formula: &'p Formula,
        words: &[Word],
        heap: &Heap,
        levels: &Levels,
    ) -> Result<bool, AllocError>
        requires guarded { predicates_unguarded 0 (map predicate_view predicates.now) ≡ [] }
        ensures { (sets : List Cells) → Stands levels.now heap.now sets → IfOk result (λ found. holds (map predicate_view predicates.now) (formula_view formula.now) (numbers words.now) (heap_view heap.now) (top_of sets) ≡ if_found found (cells_of self.new)) }
    {
        walks_by_mode();
        sets_by_members();
        cells_of_heap();
        let sight = Sight {
            heap,
            levels,
            mode: Mode::Strict,
        };
        let found = self
            .walk
            .walk(predicates, formula.parts.as_slice(), words, sight)?;
        Ok(found)
    }

    /// Whether conjuncts are separate: whether the walk without values and ownership meets no `NULL`
    /// base and no overlap.
    ///
    /// Errors: there was not memory enough.
    pub fn is_separate(
        &mut self,
        predicates: &'p [Predicate],
        parts: &'p [Conjunct],
        words: &[Word],
        heap: &Heap,
        levels: &Levels,
    ) -> Result<bool, AllocError>
        requires guarded { predicates_unguarded 0 (map predicate_view predicates.now) ≡ [] }
        ensures { (sets : List Cells) → Stands levels.now heap.now sets → IfOk result (λ found. found ≡ is_separate (map predicate_view predicates.now) (conjuncts_view parts.now) (numbers words.now) (heap_view heap.now) (top_of sets)) }
    {
        walks_by_mode();
        sets_by_members();
        cells_of_heap();
        let sight = Sight {
            heap,
            levels,
            mode: Mode::Loose,
        };
        let found = self.walk.walk(predicates, parts, words, sight)?;
        Ok(found)
    }
}

/// Whether a value over some words is true, and its reads are owned. It takes no memory.
pub fn is_true(condition: &Expr, words: &[Word], heap: &Heap, levels: &Levels) -> bool
    ensures { (sets : List Cells) → Stands levels.now heap.now sets → result ≡ is_so (value_in (heap_view heap.now) (top_of sets) (numbers words.now) (expr_view condition.now)) }
{
    sets_by_members();
    cells_of_heap();
    let sight = Sight {
        heap,
        levels,
        mode: Mode::Strict,
    };
    goes_past(condition, words, sight)
}
