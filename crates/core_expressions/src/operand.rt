//! Where the value of an expression is.

use core_tree::Simple;
use gc0_tree::Shape;

/// Where a value is, and its shape.
#[derive(Clone, Copy, Debug, PartialEq, Eq)]
pub struct Operand {
    /// A constant, a local or a temporary.
    pub value: Simple,
    /// The shape of the value.
    pub shape: Shape,
}
