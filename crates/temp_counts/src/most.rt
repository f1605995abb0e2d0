//! The most temporaries of each shape that one statement uses.

ghost use Rattle.std.specs.Prelude.{◌≡◌, ℕ, ◌+◌, ◌<◌, ◌≤◌, ◌≢◌, ◌^◌, length, max, slice_get, IfOk, OnOk};
ghost use Rattle.gc0_tree.specs.declared.Shape.{Shape as Shape'};
ghost use Rattle.temp_counts.specs.Used.{or_zero};
ghost use Rattle.temp_counts.specs.Most.{most_in, raised};

use gc0_tree::Shape;
use sqlite_items::Items;
use std::alloc::{AllocError, Global};

/// The most temporaries of each shape so far.
#[derive(Drop)]
pub struct Most {
    /// Those of ints.
    pub ints: u32,
    /// Those of truths.
    pub truths: u32,
    /// Those of `NULL` alone.
    pub nulls: u32,
    /// Those of pointers, by the number of the struct. Those of a struct behind the last are none.
    pub pointers: Items<u32>,
}

impl Most {
    /// None so far.
    pub fn new(alloc: Global) -> Most
        ensures { (s : Shape') → most_in result s ≡ 0 }
    {
        Most {
            ints: 0,
            truths: 0,
            nulls: 0,
            pointers: Items::new(alloc),
        }
    }

    /// There were so many of a shape.
    ///
    /// Errors: there was not memory enough.
    pub fn raise(&mut self, shape: Shape, count: u32) -> Result<(), AllocError>
        ensures { OnOk result ((s : Shape') → most_in self.new s ≡ raised shape count (most_in self.old) s) }
    {
        match shape {
            Shape::Int => self.ints = self.ints.max(count),
            Shape::Bool => self.truths = self.truths.max(count),
            Shape::Null => self.nulls = self.nulls.max(count),
            Shape::Pointer(k) => raise_at(&mut self.pointers, k as usize, count)?,
        }
        Ok(())
    }
}

// A number of the table is at least this one.
fn raise_at(table: &mut Items<u32>, index: usize, count: u32) -> Result<(), AllocError>
    requires { index < 2 ^ 32 }
    ensures here { OnOk result (or_zero (slice_get table.new index) ≡ max (or_zero (slice_get table.old index)) count) }
    ensures others { OnOk result ((k : ℕ) → k ≢ index → or_zero (slice_get table.new k) ≡ or_zero (slice_get table.old k)) }
{
    grow(table, index + 1)?;
    let most = number_at(table, index);
    table.set(index, most.max(count));
    Ok(())
}

/// The number at a place of a table, and 0 behind its end.
pub fn number_at(table: &Items<u32>, index: usize) -> u32
    ensures { result ≡ or_zero (slice_get table.now index) }
{
    match table.get(index) {
        None => 0,
        Some(n) => *n,
    }
}

// Puts zeros at the end of a table, so that it has a length.
#[tactic(auto, using(crate::proofs::Tables::push_zero))]
fn grow(table: &mut Items<u32>, len: usize) -> Result<(), AllocError>
    ensures long { OnOk result (len ≤ length table.new) }
    ensures same { OnOk result ((k : ℕ) → or_zero (slice_get table.new k) ≡ or_zero (slice_get table.old k)) }
{
    for _i in table.len()..len {
        table.push(0)?;
    }
    Ok(())
}
