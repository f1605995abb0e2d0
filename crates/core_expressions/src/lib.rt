//! The code of expressions: flattened from left to right, each value in a constant, a local or a temporary.
#![tactic(auto)]

mod branches;
mod calls;
mod expressions;
mod operand;
mod operators;
mod parts;
mod shapes;
mod within;
mod written;

pub use branches::{close, open};
pub use expressions::lower_expr;
pub use operand::Operand;
pub use operators::lower_operator;
pub use within::Within;
pub use written::Written;
