//! The heap: the words of all objects, one after another.

ghost use Rattle.std.specs.Prelude.{◌≡◌, slice_get, ◌+◌, ◌<◌, ◌≤◌, suc, [], ◌∷◌, ◌++◌, true, length, replicate, List, option_map, OnOk, OnErr, IfOk, IsOk, IfSome};
ghost use Rattle.owned_heap.specs.Laid.{are_laid};

use gc0_base::Word;
use std::alloc::{AllocError, Global};

/// A field of an object. Objects are counted from 1, as pointers to them are; fields from 0.
#[derive(Clone, Copy, PartialEq, Eq)]
pub struct Cell {
    /// The number of the object.
    pub object: u32,
    /// The number of the field.
    pub field: u32,
}

/// Where the words of an object lie.
#[derive(Clone, Copy)]
pub(crate) struct Stretch {
    /// The number of its struct.
    pub(crate) of_struct: u32,
    /// How many fields it has.
    pub(crate) fields: u32,
    /// Where its words start.
    pub(crate) start: usize,
}

/// The heap of a run.
#[derive(Drop)]
pub struct Heap {
    objects: Vec<Stretch>,
    words: Vec<Word>,
    ghost few: { length objects.items ≤ 4294967295 },
    ghost laid: { are_laid 0 objects.items (length words.items) ≡ true },
}

#[tactic(auto, unfolding(crate::specs::Views::heap_view, crate::specs::Views::spare))]
impl Heap {
    ghost use Rattle.c0_meaning.specs.Heaps.{Cells, cell_value, set_cell};
    ghost use Rattle.owned_heap.specs.Views.{cell_view, heap_view, object_at, counted, spare};
    ghost use Rattle.owned_heap.specs.Stands.{offset_of, stretch_of, start_of, Stands};
    ghost use Rattle.owned_heap.specs.declared.levels.Levels.{Levels};

    /// A heap without objects. It takes no memory.
    pub fn new(alloc: Global) -> Heap
        ensures { heap_view result ≡ [] }
    {
        Heap {
            objects: Vec::new(alloc),
            words: Vec::new(alloc),
        }
    }

    /// Makes an object whose fields are 0, and gives its number.
    ///
    /// Errors: there was not memory enough, or the number would not fit. The heap is then the
    /// same.
    pub fn new_object(&mut self, of_struct: u32, fields: u32) -> Result<u32, AllocError>
        ensures number { IfOk result (λ k. k ≡ suc (length (heap_view self.old))) }
        ensures made { OnOk result (heap_view self.new ≡ heap_view self.old ++ record { of_struct = of_struct; fields = replicate fields 0 } ∷ []) }
        ensures err { OnErr result (heap_view self.new ≡ heap_view self.old) }
        ensures succeeds { counted fields ≤ spare self.old → IsOk result }
        ensures spare { spare self.old ≤ spare self.new + counted fields }
        ensures levels { (levels : Levels) (sets : List Cells) → Stands levels self.old sets → Stands levels self.new sets }
    {
        let count = self.objects.len();
        if count >= u32::MAX as usize {
            return Err(AllocError);
        }
        let start = self.words.len();
        self.objects.reserve(1)?;
        self.words.resize(start + fields as usize, Word(0))?;
        self.objects.push_reserved(Stretch {
            of_struct,
            fields,
            start,
        });
        Ok(count as u32 + 1)
    }

    /// Makes room for so many cells, in as many objects at most.
    ///
    /// Errors: there was not memory enough, or there may not be so many objects more. The heap is
    /// then the same.
    pub fn reserve_cells(&mut self, cells: u64) -> Result<(), AllocError>
        ensures view { heap_view self.new ≡ heap_view self.old }
        ensures spare { OnOk result (cells ≤ spare self.new) }
        ensures kept { spare self.old ≤ spare self.new }
        ensures levels { (levels : Levels) (sets : List Cells) → Stands levels self.old sets → Stands levels self.new sets }
    {
        let cells = cells as usize;
        if cells > u32::MAX as usize - self.objects.len() {
            return Err(AllocError);
        }
        self.objects.reserve(cells)?;
        self.words.reserve(cells)
    }

    // Where the words of an object lie.
    #[inline]
    pub(crate) fn stretch(&self, object: u32) -> Option<Stretch>
        ensures is { result ≡ stretch_of self.now object }
        ensures within { IfSome result (λ s. s.start + s.fields ≤ length self.now.words.items) }
    {
        if object == 0 {
            return None;
        }
        self.stretch_at(object as usize - 1)
    }

    // The same of the object with so many before it.
    #[inline]
    fn stretch_at(&self, index: usize) -> Option<Stretch>
        ensures { result ≡ slice_get self.now.objects.items index }
    {
        self.objects.get(index).copied()
    }

    // Where the word of a cell lies.
    #[inline]
    pub(crate) fn at(&self, cell: Cell) -> Option<usize>
        ensures is { result ≡ offset_of self.now (cell_view cell) }
        ensures within { IfSome result (λ place. place < length self.now.words.items) }
    {
        let Some(stretch) = self.stretch(cell.object) else {
            return None;
        };
        if cell.field < stretch.fields {
            Some(stretch.start + cell.field as usize)
        } else {
            None
        }
    }

    // Where the words of the objects behind the first so many start.
    pub(crate) fn words_of(&self, first: u32) -> usize
        ensures is { result ≡ start_of (slice_get self.now.objects.items first) (length self.now.words.items) }
        ensures within { result ≤ length self.now.words.items }
    {
        match self.stretch_at(first as usize) {
            Some(stretch) => stretch.start,
            None => self.words.len(),
        }
    }

    // How many words all objects have.
    pub(crate) fn word_count(&self) -> usize
        ensures { result ≡ length self.now.words.items }
    {
        self.words.len()
    }

    /// The word in a cell, and none where the heap has no such cell.
    #[inline]
    pub fn value(&self, cell: Cell) -> Option<Word>
        ensures value { 0 < cell.object → option_map (λ w. w.0) result ≡ cell_value (heap_view self.now) (cell_view cell) }
        ensures null { cell.object ≡ 0 → result ≡ None }
    {
        match self.at(cell) {
            Some(at) => Some(self.words[at]),
            None => None,
        }
    }

    /// Writes a word into a cell. Where the heap has no such cell, nothing changes.
    #[inline]
    pub fn set(&mut self, cell: Cell, word: Word)
        ensures set { 0 < cell.object → heap_view self.new ≡ set_cell (heap_view self.old) (cell_view cell) word.0 }
        ensures null { cell.object ≡ 0 → heap_view self.new ≡ heap_view self.old }
        ensures spare { spare self.new ≡ spare self.old }
        ensures levels { (levels : Levels) (sets : List Cells) → Stands levels self.old sets → Stands levels self.new sets }
    {
        if let Some(at) = self.at(cell) {
            self.words[at] = word;
        }
    }

    /// How many objects there are.
    pub fn objects(&self) -> u32
        ensures { result ≡ length (heap_view self.now) }
    {
        self.objects.len() as u32
    }

    /// The number of an object's struct, and none where the heap has no such object.
    pub fn struct_of(&self, object: u32) -> Option<u32>
        ensures { result ≡ option_map (λ o. o.of_struct) (object_at (heap_view self.now) object) }
    {
        match self.stretch(object) {
            Some(stretch) => Some(stretch.of_struct),
            None => None,
        }
    }

    /// How many fields an object has, and none where the heap has no such object.
    pub fn fields_of(&self, object: u32) -> Option<u32>
        ensures { result ≡ option_map (λ o. length o.fields) (object_at (heap_view self.now) object) }
    {
        match self.stretch(object) {
            Some(stretch) => Some(stretch.fields),
            None => None,
        }
    }
}
