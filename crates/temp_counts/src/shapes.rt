//! The shapes of the parts of expressions.

ghost use Rattle.std.specs.Prelude.{◌≡◌, slice_get};
ghost use Rattle.gc0_tree.specs.Fits.{common, unary_shape, gives, library_gives, shapes_in};
ghost use Rattle.gc0_tree.specs.Views.{program_view};
ghost use Rattle.lowering_laws.specs.Counts.{or_int, result_of, read_shape};

use gc0_tree::{ExprOp, LibraryCall, Program, Shape, UnaryOp};
use sqlite_items::Items;

/// No well-typed part of a program lacks its shape.
pub fn or_int(shape: Option<Shape>) -> Shape
    ensures { result ≡ or_int shape }
{
    shape.unwrap_or(Shape::Int)
}

/// What two values have in common that are chosen between.
pub fn common(a: Shape, b: Shape) -> Option<Shape>
    ensures { result ≡ common a b }
{
    match (a, b) {
        (Shape::Int, Shape::Int) => Some(Shape::Int),
        (Shape::Bool, Shape::Bool) => Some(Shape::Bool),
        (Shape::Null, Shape::Null) => Some(Shape::Null),
        (Shape::Null, Shape::Pointer(k)) => Some(Shape::Pointer(k)),
        (Shape::Pointer(j), Shape::Null) => Some(Shape::Pointer(j)),
        (Shape::Pointer(j), Shape::Pointer(k)) => {
            if j == k {
                Some(Shape::Pointer(j))
            } else {
                None
            }
        }
        _ => None,
    }
}

/// What an operator of one operand gives.
pub fn unary_shape(op: UnaryOp) -> Shape
    ensures { result ≡ unary_shape op }
{
    match op {
        UnaryOp::Neg => Shape::Int,
        UnaryOp::Not => Shape::Int,
        UnaryOp::Flip => Shape::Bool,
    }
}

/// What an operator between two operands gives.
pub fn gives(op: ExprOp) -> Shape
    ensures { result ≡ gives op }
{
    match op {
        ExprOp::Less
        | ExprOp::LessEq
        | ExprOp::Greater
        | ExprOp::GreaterEq
        | ExprOp::Equal
        | ExprOp::NotEqual => Shape::Bool,
        _ => Shape::Int,
    }
}

/// What a library call gives.
pub fn library_gives(call: LibraryCall) -> Option<Shape>
    ensures { result ≡ library_gives call }
{
    match call {
        LibraryCall::ReadInt => Some(Shape::Int),
        LibraryCall::MoreInt => Some(Shape::Bool),
        _ => None,
    }
}

/// The shape of a local or a field by its number.
#[tactic(auto, using(crate::proofs::Tables::viewed))]
pub fn shape_at(named: &[(Items<u8>, Shape)], at: usize) -> Shape
    ensures { result ≡ or_int (slice_get (shapes_in named.now) at) }
{
    match named.get(at) {
        None => Shape::Int,
        Some(one) => one.1,
    }
}

/// The shape of a field that is read.
#[tactic(auto, using(crate::proofs::Tables::viewed))]
pub fn read_shape(program: &Program, of_struct: u32, field: u32) -> Shape
    ensures { result ≡ read_shape (program_view program.now) of_struct field }
{
    match program.structs.get(of_struct as usize) {
        None => Shape::Int,
        Some(one) => shape_at(one.fields.as_slice(), field as usize),
    }
}

/// The shape of a call's result, where there is one.
#[tactic(auto, using(crate::proofs::Tables::viewed))]
pub fn result_of(program: &Program, function: u32) -> Option<Shape>
    ensures { result ≡ result_of (slice_get (program_view program.now).functions function) }
{
    match program.functions.get(function as usize) {
        None => None,
        Some(callee) => callee.result,
    }
}
