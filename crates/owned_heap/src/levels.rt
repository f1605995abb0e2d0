//! The levels, and what each of them owns.
//!
//! A level that opens with a set of its own stamps the set's cells with a new time. Since the set
//! of a level goes to the one below it at the end, a cell is owned by the running level exactly
//! where its stamp isn't older than the level.

ghost use Rattle.std.specs.Prelude.{◌≡◌, ℕ, ◌<◌, ◌≤◌, [], ◌∷◌, length, map, List, slice_index, OnOk, OnErr};

use crate::heap::{Cell, Heap};
use crate::stamps::{cover, stamp_cells, stamp_words};
use std::alloc::{AllocError, Global};

/// A stack of levels, each of which owns cells of one heap. There is always one.
#[derive(Drop)]
pub struct Levels {
    // A stamp for each word of the heap. One that is missing is 0, and was never owned.
    stamps: Vec<u32>,
    // The times from which on a stamp counts for the levels that wait, the outermost first.
    outer: Vec<u32>,
    // The same of the running level.
    top: u32,
    // The time now.
    clock: u32,
    ghost top_began: { (0 < top) × (top ≤ clock) },
    ghost outer_began: { (k : ℕ) → k < length outer.items → (0 < slice_index outer.items k) × (slice_index outer.items k ≤ clock) },
    ghost past: { (k : ℕ) → slice_index stamps.items k ≤ clock },
}

impl Levels {
    ghost use Rattle.c0_meaning.specs.Heaps.{Cells, owns};
    ghost use Rattle.owned_heap.specs.declared.heap.Heap.{Heap as OneHeap};
    ghost use Rattle.owned_heap.specs.Views.{cell_view, heap_view, object_at, fields_in};
    ghost use Rattle.owned_heap.specs.LevelSets.{top_of, AreOwned, opened, opened_all, closed, with_object, adopted};
    ghost use Rattle.owned_heap.specs.Stands.{Stands, stamp_of, is_owned};

    /// One level, which owns nothing. It takes no memory.
    pub fn new(alloc: Global) -> Levels
        ensures { (heap : OneHeap) → Stands result heap ([] ∷ []) }
    {
        Levels {
            stamps: Vec::new(alloc),
            outer: Vec::new(alloc),
            top: 1,
            clock: 1,
        }
    }

    /// Whether the running level owns the cell.
    #[inline]
    pub fn owns(&self, heap: &Heap, cell: Cell) -> bool
        ensures exact { result ≡ is_owned self.now heap.now (cell_view cell) }
        ensures sets { (sets : List Cells) → Stands self.now heap.now sets → result ≡ owns (top_of sets) (cell_view cell) }
    {
        self.stamp(heap, cell) >= self.top
    }

    /// Opens a level that owns these cells, each of which the running level owns.
    ///
    /// Errors: there was not memory enough, or no further time. The levels then own what they
    /// owned.
    pub fn open_precise(&mut self, heap: &Heap, cells: &[Cell]) -> Result<(), AllocError>
        ensures opened { OnOk result ((sets : List Cells) → AreOwned (map cell_view cells.now) sets → Stands self.old heap.now sets → Stands self.new heap.now (opened (map cell_view cells.now) sets)) }
        ensures err { OnErr result ((sets : List Cells) → Stands self.old heap.now sets → Stands self.new heap.now sets) }
    {
        let Some(clock) = self.clock.checked_add(1) else {
            return Err(AllocError);
        };
        cover(&mut self.stamps, heap.word_count())?;
        self.outer.push(self.top)?;
        stamp_cells(&mut self.stamps, heap, cells, clock);
        self.top = clock;
        self.clock = clock;
        Ok(())
    }

    /// Opens a level that owns what the running one owns.
    ///
    /// Errors: there was not memory enough. The levels then own what they owned.
    pub fn open_all(&mut self) -> Result<(), AllocError>
        ensures opened { OnOk result ((heap : OneHeap) (sets : List Cells) → Stands self.old heap sets → Stands self.new heap (opened_all sets)) }
        ensures err { OnErr result ((heap : OneHeap) (sets : List Cells) → Stands self.old heap sets → Stands self.new heap sets) }
    {
        self.outer.push(self.top)?;
        Ok(())
    }

    /// Closes the running level. The one below it then owns its own cells and those of the closed
    /// one. Of one level alone nothing changes.
    pub fn close(&mut self)
        ensures { (heap : OneHeap) (sets : List Cells) → Stands self.old heap sets → Stands self.new heap (closed sets) }
    {
        if let Some(start) = self.outer.pop() {
            self.top = start;
        }
    }

    /// The running level owns the cells of an object too. Where the heap has no such object,
    /// nothing changes.
    ///
    /// Errors: there was not memory enough. The levels then own what they owned.
    pub fn own_new(&mut self, heap: &Heap, object: u32) -> Result<(), AllocError>
        ensures owned { OnOk result ((sets : List Cells) → Stands self.old heap.now sets → Stands self.new heap.now (with_object object (fields_in (object_at (heap_view heap.now) object)) sets)) }
        ensures err { OnErr result ((sets : List Cells) → Stands self.old heap.now sets → Stands self.new heap.now sets) }
    {
        let Some(stretch) = heap.stretch(object) else {
            return Ok(());
        };
        let end = stretch.start + stretch.fields as usize;
        cover(&mut self.stamps, heap.word_count())?;
        stamp_words(&mut self.stamps, stretch.start, end, self.clock);
        Ok(())
    }

    /// The running level owns all cells of the objects, too, that were made since there were
    /// `first`.
    ///
    /// Errors: there was not memory enough. The levels then own what they owned.
    pub fn adopt_since(&mut self, first: u32, heap: &Heap) -> Result<(), AllocError>
        ensures adopted { OnOk result ((sets : List Cells) → Stands self.old heap.now sets → Stands self.new heap.now (adopted first (heap_view heap.now) sets)) }
        ensures err { OnErr result ((sets : List Cells) → Stands self.old heap.now sets → Stands self.new heap.now sets) }
    {
        let count = heap.word_count();
        cover(&mut self.stamps, count)?;
        stamp_words(&mut self.stamps, heap.words_of(first), count, self.clock);
        Ok(())
    }

    // The stamp of a cell, and 0 where there is none.
    #[inline]
    fn stamp(&self, heap: &Heap, cell: Cell) -> u32
        ensures { result ≡ stamp_of self.now heap.now (cell_view cell) }
    {
        match heap.at(cell) {
            Some(at) if at < self.stamps.len() => self.stamps[at],
            _ => 0,
        }
    }
}
