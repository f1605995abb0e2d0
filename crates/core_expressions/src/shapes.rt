//! The shapes of values.

ghost use Rattle.std.specs.Prelude.{◌≡◌, slice_get};
ghost use Rattle.gc0_tree.specs.Fits.{common};
ghost use Rattle.gc0_tree.specs.Sites.{may_fault, reads_input};
ghost use Rattle.c0_meaning.specs.Operators.{truth_word};
ghost use Rattle.lowering_laws.specs.Counts.{or_int};
ghost use Rattle.core_expressions.specs.Writing.{room_in};

use crate::within::Within;
use gc0_base::Word;
use gc0_tree::{ExprOp, LibraryCall, Shape};
use temp_counts::{common, or_int, shape_at};

pub(crate) fn truth(b: bool) -> Word
    ensures { result.0 ≡ truth_word b }
{
    if b { Word(1) } else { Word(0) }
}

pub(crate) fn may_fault(op: ExprOp) -> bool
    ensures { result ≡ may_fault op }
{
    matches!(op, ExprOp::Div | ExprOp::Rem | ExprOp::Shl | ExprOp::Shr)
}

pub(crate) fn reads_input(call: LibraryCall) -> bool
    ensures { result ≡ reads_input call }
{
    matches!(call, LibraryCall::ReadInt)
}

pub(crate) fn chosen_shape(a: Shape, b: Shape) -> Shape
    ensures { result ≡ or_int (common a b) }
{
    or_int(common(a, b))
}

pub(crate) fn local_shape(within: &Within<'_>, local: u32) -> Shape
    ensures { result ≡ or_int (slice_get (room_in within.now).locals local) }
{
    shape_at(within.function.locals.as_slice(), local as usize)
}
