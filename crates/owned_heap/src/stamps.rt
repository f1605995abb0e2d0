//! Stamps of words, as the levels keep them.

ghost use Rattle.std.specs.Prelude.{◌≡◌, ℕ, ◌<◌, ◌≤◌, ◌⊎◌, max, length, map, Some, slice_index, OnOk, if◌then◌else◌};
ghost use Rattle.c0_meaning.specs.Heaps.{Cell as OneCell, owns};
ghost use Rattle.owned_heap.specs.Views.{cell_view};
ghost use Rattle.owned_heap.specs.Stands.{offset_of};

use crate::heap::{Cell, Heap};
use std::alloc::AllocError;

// Makes sure that there is a stamp for each of so many words.
pub(crate) fn cover(stamps: &mut Vec<u32>, count: usize) -> Result<(), AllocError>
    ensures len { OnOk result (count ≤ length stamps.new.items) }
    ensures bound { length stamps.new.items ≤ max count (length stamps.old.items) }
    ensures same { (k : ℕ) → slice_index stamps.new.items k ≡ slice_index stamps.old.items k }
{
    if stamps.len() < count {
        stamps.resize(count, 0)?;
    }
    Ok(())
}

// Stamps the words from one place on up to another.
pub(crate) fn stamp_words(stamps: &mut Vec<u32>, from: usize, to: usize, clock: u32)
    requires order { from ≤ to }
    requires within { to ≤ length stamps.old.items }
    ensures len { length stamps.new.items ≡ length stamps.old.items }
    ensures inside { (k : ℕ) → from ≤ k → k < to → slice_index stamps.new.items k ≡ clock }
    ensures outside { (k : ℕ) → (k < from) ⊎ (to ≤ k) → slice_index stamps.new.items k ≡ slice_index stamps.old.items k }
{
    for at in from..to {
        stamps[at] = clock;
    }
}

// Stamps the words of the cells.
pub(crate) fn stamp_cells(stamps: &mut Vec<u32>, heap: &Heap, cells: &[Cell], clock: u32)
    requires { length heap.now.words.items ≤ length stamps.old.items }
    ensures len { length stamps.new.items ≡ length stamps.old.items }
    ensures stamped { (c : OneCell) (place : ℕ) → offset_of heap.now c ≡ Some place → slice_index stamps.new.items place ≡ (if owns (map cell_view cells.now) c then clock else slice_index stamps.old.items place) }
    ensures past { (k : ℕ) → slice_index stamps.old.items k ≤ clock → slice_index stamps.new.items k ≤ clock }
{
    for cell in cells {
        if let Some(at) = heap.at(*cell) {
            stamps[at] = clock;
        }
    }
}
