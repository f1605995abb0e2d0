//! How much a formula may have.

/// The limits of a formula. A text that goes past them is none of the format.
pub struct FormulaLimits;

impl FormulaLimits {
    /// How many variables a formula may have.
    pub const VARIABLES: u32 = 1_000_000;
    /// How many clauses a formula may have: as many as a number of a log can name.
    pub const CLAUSES: u32 = 4_294_967_295;
}
