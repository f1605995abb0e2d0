//! Scopes.

/// Whose locals a formula speaks of.
#[derive(Clone, Copy, Debug, PartialEq, Eq)]
pub enum Scope {
    /// Those of the function of this number.
    Function(u32),
    /// The parameters of the predicate of this number.
    Predicate(u32),
}
