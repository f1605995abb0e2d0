//! A limit of counts.

/// A limit that a program passes.
#[derive(Clone, Copy, Debug, PartialEq, Eq)]
pub enum Limit {
    /// It has too many structs.
    Structs,
    /// It has too many predicates.
    Predicates,
    /// It has too many functions.
    Functions,
    /// The struct of this number has too many fields.
    Fields(u32),
    /// The function of this number has too many locals, its parameters included.
    Locals(u32),
    /// A statement or a test of the function of this number has too many temporaries.
    Temporaries(u32),
}
