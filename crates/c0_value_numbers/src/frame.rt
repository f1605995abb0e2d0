//! What names inside a function or predicate stand for.

use c0_names::{TypedNames, ValueType};

/// What names inside a function or predicate stand for.
#[derive(Drop)]
pub struct Frame<'a> {
    /// The locals that are declared so far, by number. A name in scope is not declared again, so
    /// the last local of a name is the one in scope.
    pub locals: TypedNames<'a>,
    /// What `\result` is.
    pub result: ValueType,
}
