//! The numbers and the shapes of temporaries, by how many there are of each shape.

ghost use Rattle.std.specs.Prelude.{◌≡◌, ◌+◌, ◌++◌, sum as total, replicate, IfOk, OnOk};
ghost use Rattle.lowering_laws.specs.Lowering.{pointer_temps, temps_of};
ghost use Rattle.temp_counts.specs.Most.{most_in};
ghost use Rattle.temp_counts.specs.Used.{starts_from};

use crate::most::{Most, number_at};
use gc0_tree::Shape;
use sqlite_items::Items;
use std::alloc::{AllocError, Global};

/// A length as a number.
///
/// Errors: it is 2^32 or more.
pub fn fitting(length: usize) -> Result<u32, AllocError>
    ensures { IfOk result (λ n. n ≡ length) }
{
    if length > 0xffff_ffff {
        return Err(AllocError);
    }
    Ok(length as u32)
}

/// A sum.
///
/// Errors: it is 2^32 or more.
pub fn sum(a: u32, b: u32) -> Result<u32, AllocError>
    ensures { IfOk result (λ n. n ≡ a + b) }
{
    a.checked_add(b).ok_or(AllocError)
}

/// Where each of these begins that follow each other from a number on, and the number behind the
/// last.
///
/// Errors: there was not memory enough, or a number would be 2^32 or more.
pub fn starts_of(alloc: Global, first: u32, counts: &[u32]) -> Result<(Items<u32>, u32), AllocError>
    ensures starts { IfOk result (λ s. s.0 ≡ starts_from first counts.now) }
    ensures behind { IfOk result (λ s. s.1 ≡ first + total counts.now) }
{
    let mut starts = Items::new(alloc);
    let mut at = first;
    for count in counts {
        starts.push(at)?;
        at = sum(at, *count)?;
    }
    Ok((starts, at))
}

/// The shapes of temporaries, by how many there are of each shape in a program with so many structs.
///
/// Errors: there was not memory enough, or there are 2^32 structs or more.
pub fn shapes_of(alloc: Global, most: &Most, structs: usize) -> Result<Items<Shape>, AllocError>
    ensures { IfOk result (λ shapes. shapes ≡ temps_of (most_in most.now) structs) }
{
    let mut shapes = Items::new(alloc);
    push_times(&mut shapes, Shape::Int, most.ints)?;
    push_times(&mut shapes, Shape::Bool, most.truths)?;
    push_times(&mut shapes, Shape::Null, most.nulls)?;
    push_pointers(&mut shapes, most, structs)?;
    Ok(shapes)
}

// A shape, so many times.
fn push_times(shapes: &mut Items<Shape>, shape: Shape, count: u32) -> Result<(), AllocError>
    ensures { OnOk result (shapes.new ≡ shapes.old ++ replicate count shape) }
{
    for _i in 0..count {
        shapes.push(shape)?;
    }
    Ok(())
}

// The shapes of the pointers. The table may end before the structs do.
fn push_pointers(shapes: &mut Items<Shape>, most: &Most, structs: usize) -> Result<(), AllocError>
    ensures { OnOk result (shapes.new ≡ shapes.old ++ pointer_temps (most_in most.now) structs) }
{
    let end = fitting(structs.min(most.pointers.len()))?;
    for k in 0..end {
        let count = number_at(&most.pointers, k as usize);
        push_times(shapes, Shape::Pointer(k), count)?;
    }
    Ok(())
}
