//! What one statement uses beside the most so far.

ghost use Rattle.std.specs.Prelude.{◌≡◌, IfOk, OnOk};
ghost use Rattle.gc0_tree.specs.declared.Shape.{Shape as Shape'};
ghost use Rattle.lowering_laws.specs.Counts.{with_temp};
ghost use Rattle.temp_counts.specs.Used.{used_in};
ghost use Rattle.temp_counts.specs.Most.{most_in};
ghost use Rattle.temp_counts.specs.Counting.{Counting};

use crate::most::Most;
use crate::used::{TempCounts, behind};
use gc0_tree::Shape;
use std::alloc::{AllocError, Global};

/// What the present statement uses, and the most that one of the statements so far uses.
#[derive(Drop)]
pub struct Tally {
    /// What the present statement uses so far.
    pub used: TempCounts,
    /// The most so far, those in use among them.
    pub most: Most,
}

impl Tally {
    /// None so far.
    pub fn new(alloc: Global) -> Tally
        ensures { (s : Shape') → most_in result.most s ≡ 0 }
    {
        Tally {
            used: TempCounts::new(alloc),
            most: Most::new(alloc),
        }
    }

    /// Begins with a statement.
    pub fn clear(&mut self)
        ensures used { (s : Shape') → used_in self.new.used s ≡ 0 }
        ensures most { self.new.most ≡ self.old.most }
    {
        self.used.clear();
    }

    /// A temporary of a shape. Gives the shape back.
    ///
    /// Errors: there was not memory enough, or there are 2^32 - 1 of them.
    pub fn hold(&mut self, shape: Shape) -> Result<Shape, AllocError>
        ensures shape { IfOk result (λ s. s ≡ shape) }
        ensures counting { OnOk result (Counting self.old self.new (with_temp shape)) }
    {
        let number = self.used.take(shape)?;
        self.most.raise(shape, behind(number)?)?;
        Ok(shape)
    }
}
