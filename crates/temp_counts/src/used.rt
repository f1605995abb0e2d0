//! How many temporaries of each shape a statement uses so far.

ghost use Rattle.std.specs.Prelude.{◌≡◌, suc, nat_eq, IfOk, OnOk};
ghost use Rattle.gc0_tree.specs.declared.Shape.{Shape as Shape'};
ghost use Rattle.lowering_laws.specs.Counts.{one_more};
ghost use Rattle.temp_counts.specs.Used.{or_zero, used_in};
ghost use Rattle.indexmap.specs.IndexMap.{get};

use gc0_tree::Shape;
use indexmap::IndexMap;
use std::alloc::{AllocError, Global};

/// How many temporaries of each shape a statement uses so far.
#[derive(Drop)]
pub struct TempCounts {
    ints: u32,
    truths: u32,
    nulls: u32,
    pointers: IndexMap<u32, u32>,
    alloc: Global,
}

impl TempCounts {
    /// None so far.
    pub fn new(alloc: Global) -> TempCounts
        ensures { (s : Shape') → used_in result s ≡ 0 }
    {
        TempCounts {
            ints: 0,
            truths: 0,
            nulls: 0,
            pointers: IndexMap::new(alloc),
            alloc,
        }
    }

    /// One more of a shape. Gives how many there were before.
    ///
    /// Errors: there was not memory enough, or there are 2^32 - 1 of them.
    pub fn take(&mut self, shape: Shape) -> Result<u32, AllocError>
        ensures number { IfOk result (λ k. k ≡ used_in self.old shape) }
        ensures used { OnOk result ((s : Shape') → used_in self.new s ≡ one_more shape (used_in self.old) s) }
    {
        let number = self.used(shape);
        let more = behind(number)?;
        match shape {
            Shape::Int => self.ints = more,
            Shape::Bool => self.truths = more,
            Shape::Null => self.nulls = more,
            Shape::Pointer(k) => {
                self.pointers.insert(k, more)?;
            }
        }
        Ok(number)
    }

    /// None again, as at the start of a statement. Takes the time of those that are used.
    pub fn clear(&mut self)
        ensures { (s : Shape') → used_in self.new s ≡ 0 }
    {
        self.ints = 0;
        self.truths = 0;
        self.nulls = 0;
        self.pointers = IndexMap::new(self.alloc);
    }

    fn used(&self, shape: Shape) -> u32
        ensures { result ≡ used_in self.now shape }
    {
        match shape {
            Shape::Int => self.ints,
            Shape::Bool => self.truths,
            Shape::Null => self.nulls,
            Shape::Pointer(k) => self.used_of(k),
        }
    }

    fn used_of(&self, of_struct: u32) -> u32
        ensures { result ≡ or_zero (get nat_eq self.now.pointers of_struct) }
    {
        match self.pointers.get(&of_struct) {
            None => 0,
            Some(n) => *n,
        }
    }
}

/// The number behind one.
///
/// Errors: it would be 2^32.
pub fn behind(number: u32) -> Result<u32, AllocError>
    ensures { IfOk result (λ n. n ≡ suc number) }
{
    number.checked_add(1).ok_or(AllocError)
}
