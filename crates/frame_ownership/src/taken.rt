//! The cells that a walk has taken.

ghost use Rattle.std.specs.Prelude.{◌≡◌, ℕ, ◌+◌, ◌<◌, ◌&&◌, [], ◌∷◌, ◌++◌, not, eqb, length, map, slice_index, IfOk, OnOk, OnErr, if◌then◌else◌};
ghost use Rattle.c0_meaning.specs.Heaps.{owns, same_cell};
ghost use Rattle.owned_heap.specs.Views.{cell_view};
ghost use Rattle.frame_ownership.specs.Placed.{row_at, place_in};

use owned_heap::Cell;
use std::alloc::{AllocError, Global};
use std::marker::Model;

/// The cells that were taken, in their order, each of them once.
///
/// Whether a cell is among them is told by one look: a table says where it would stand. The table
/// is never cleared, since what it says is compared with what stands there.
#[derive(Drop)]
pub(crate) struct Taken {
    cells: Vec<Cell>,
    // For each number of a field a list by objects: where the cell of that object and field stands
    // among the cells, if it stands there at all.
    places: Vec<Vec<u32>>,
    alloc: Global,
}

impl Model for Taken {
    ghost use Rattle.std.specs.Prelude.{map};
    ghost use Rattle.c0_meaning.specs.Heaps.{Cells};
    ghost use Rattle.owned_heap.specs.Views.{cell_view};
    ghost use Rattle.frame_ownership.specs.Placed.{ArePlaced};

    ghost Value = { Cells };

    ghost view = { λ t. map cell_view t.cells.items };

    ghost invariant = { λ t. ArePlaced t.cells.items t.places.items };
}

// Where a cell would stand.
fn place_of(places: &[Vec<u32>], cell: Cell) -> usize
    ensures { result ≡ place_in places.now cell.object cell.field }
{
    match places.get(cell.field as usize) {
        Some(row) => match row.get(cell.object as usize) {
            Some(place) => *place as usize,
            None => 0,
        },
        None => 0,
    }
}

// Makes room in a row for an object. What it says stays.
fn stretch(row: &mut Vec<u32>, object: u32) -> Result<(), AllocError>
    ensures same { (k : ℕ) → slice_index row.new.items k ≡ slice_index row.old.items k }
    ensures room { OnOk result (object < length row.new.items) }
{
    let object = object as usize;
    if object < row.len() {
        return Ok(());
    }
    row.resize(object + 1, 0)
}

// Makes rows for the fields up to this one. What they say stays.
fn add_rows(alloc: Global, places: &mut Vec<Vec<u32>>, field: usize) -> Result<(), AllocError>
    ensures same { (object f : ℕ) → place_in places.new.items object f ≡ place_in places.old.items object f }
    ensures room { OnOk result (field < length places.new.items) }
{
    while places.len() <= field {
        places.push(Vec::new(alloc))?;
    }
    Ok(())
}

// Makes room for a cell's place. What the table says stays.
fn make_room(alloc: Global, places: &mut Vec<Vec<u32>>, cell: Cell) -> Result<(), AllocError>
    ensures same { (object f : ℕ) → place_in places.new.items object f ≡ place_in places.old.items object f }
    ensures rows { OnOk result (cell.field < length places.new.items) }
    ensures room { OnOk result (cell.object < length (row_at places.new.items cell.field)) }
{
    add_rows(alloc, places, cell.field as usize)?;
    stretch(&mut places[cell.field as usize], cell.object)
}

// Notes where a cell stands.
fn put(places: &mut Vec<Vec<u32>>, cell: Cell, place: u32)
    requires rows { cell.field < length places.old.items }
    requires room { cell.object < length (row_at places.old.items cell.field) }
    ensures { (object f : ℕ) → place_in places.new.items object f ≡ (if eqb object cell.object && eqb f cell.field then place else place_in places.old.items object f) }
{
    let row = &mut places[cell.field as usize];
    row[cell.object as usize] = place;
}

fn same(a: Cell, b: Cell) -> bool
    ensures { result ≡ same_cell (cell_view a) (cell_view b) }
{
    a.object == b.object && a.field == b.field
}

impl Taken {
    /// No cells. It takes no memory.
    pub(crate) fn new(alloc: Global) -> Taken
        ensures { result ≡ [] }
    {
        Taken {
            cells: Vec::new(alloc),
            places: Vec::new(alloc),
            alloc,
        }
    }

    /// Gives all cells back.
    pub(crate) fn clear(&mut self)
        ensures { self.new ≡ [] }
    {
        self.cells.clear();
    }

    /// The cells.
    pub(crate) fn cells(&self) -> &[Cell]
        ensures { map cell_view result.now ≡ self.now }
    {
        self.cells.as_slice()
    }

    // Whether a cell is among these.
    fn has(&self, cell: Cell) -> bool
        ensures { result ≡ owns self.now (cell_view cell) }
    {
        let place = place_of(self.places.as_slice(), cell);
        place < self.cells.len() && same(self.cells[place], cell)
    }

    /// Takes a cell, unless it is taken. Tells whether it was not.
    ///
    /// Errors: there was not memory enough. The cells are then the same.
    pub(crate) fn take(&mut self, cell: Cell) -> Result<bool, AllocError>
        ensures new { IfOk result (λ new. new ≡ not (owns self.old (cell_view cell))) }
        ensures cells { OnOk result (self.new ≡ (if owns self.old (cell_view cell) then self.old else self.old ++ cell_view cell ∷ [])) }
        ensures err { OnErr result (self.new ≡ self.old) }
    {
        if self.has(cell) {
            return Ok(false);
        }
        let place = self.cells.len();
        if place > u32::MAX as usize {
            return Err(AllocError);
        }
        make_room(self.alloc, &mut self.places, cell)?;
        self.cells.push(cell)?;
        put(&mut self.places, cell, place as u32);
        Ok(true)
    }
}
