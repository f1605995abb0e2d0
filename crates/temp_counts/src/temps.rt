//! The temporaries of a function.

ghost use Rattle.std.specs.Prelude.{◌≡◌, IfOk, slice_get};
ghost use Rattle.gc0_tree.specs.Views.{function_view, program_view};
ghost use Rattle.temp_counts.specs.Used.{or_else, slot_from, AreTemps};

use crate::numbering::{fitting, shapes_of, starts_of, sum};
use crate::statements::most_used;
use gc0_tree::{Function, Program, Shape};
use sqlite_items::Items;
use std::alloc::{AllocError, Global};

/// The temporaries of a function: those of a shape follow each other behind the locals, as many as
/// one of its statements or tests needs at most.
#[derive(Drop)]
pub struct Temps {
    /// Their shapes, in the order of their numbers.
    pub shapes: Items<Shape>,
    ints: u32,
    truths: u32,
    nulls: u32,
    pointers: Items<u32>,
    behind: u32,
}

impl Temps {
    /// Counts the temporaries of a function of a program.
    ///
    /// Errors: there was not memory enough, or a number would be 2^32 or more.
    pub fn new(alloc: Global, program: &Program, function: &Function) -> Result<Temps, AllocError>
        ensures { IfOk result (λ t. AreTemps t (program_view program.now) (function_view function.now)) }
    {
        let most = most_used(alloc, program, function)?;
        let ints = fitting(function.locals.len())?;
        let truths = sum(ints, most.ints)?;
        let nulls = sum(truths, most.truths)?;
        let first = sum(nulls, most.nulls)?;
        let (pointers, behind) = starts_of(alloc, first, most.pointers.as_slice())?;
        let shapes = shapes_of(alloc, &most, program.structs.len())?;
        Ok(Temps {
            shapes,
            ints,
            truths,
            nulls,
            pointers,
            behind,
        })
    }

    /// The number of the k-th temporary of a shape.
    ///
    /// Errors: the number would be 2^32 or more.
    pub fn slot(&self, shape: Shape, k: u32) -> Result<u32, AllocError>
        ensures { IfOk result (λ n. n ≡ slot_from self.now shape k) }
    {
        match shape {
            Shape::Int => sum(self.ints, k),
            Shape::Bool => sum(self.truths, k),
            Shape::Null => sum(self.nulls, k),
            Shape::Pointer(j) => sum(self.first_of(j), k),
        }
    }

    // The number of the first temporary of a pointer.
    fn first_of(&self, of_struct: u32) -> u32
        ensures { result ≡ or_else self.now.behind (slice_get self.now.pointers of_struct) }
    {
        match self.pointers.get(of_struct as usize) {
            None => self.behind,
            Some(n) => *n,
        }
    }
}
