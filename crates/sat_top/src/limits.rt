//! How much may be asked for, and how long a file may be.

/// The limits of the program.
pub struct Limits;

impl Limits {
    /// How many bytes a file with a formula may have: 64 MiB.
    pub const BYTES: usize = 67_108_864;
    /// How many clauses a search may learn where the words name no number.
    pub const DEFAULT_CONFLICTS: u64 = 100_000;
    /// The greatest number of clauses that may be asked for.
    pub const CONFLICTS: u64 = 4_294_967_295;
}
