//! The limits of the project: how large a program, a run and a query may be.

/// The limits of the project. A program within them is compiled, one past them is refused.
pub struct Limits;

impl Limits {
    /// The bytes of a source text.
    pub const SOURCE: usize = 262_144;
    /// The bytes of the input of a run.
    pub const INPUT: usize = 1_048_576;
    /// The nodes on a path of a tree.
    pub const NESTING: u32 = 100;
    /// The structs of a program.
    pub const STRUCTS: u32 = 512;
    /// The predicates of a program.
    pub const PREDICATES: u32 = 512;
    /// The functions of a program.
    pub const FUNCTIONS: u32 = 512;
    /// The fields of a struct.
    pub const FIELDS: u32 = 64;
    /// The locals of a function, its parameters included.
    pub const LOCALS: u32 = 128;
    /// The temporaries of one statement or test.
    pub const TEMPORARIES: u32 = 1_024;
    /// The decision paths of a plain function.
    pub const PATHS: u64 = 4_096;
    /// The weight of a query to the solver.
    pub const WEIGHT: u64 = 1_000_000;
    /// The steps of a run.
    pub const STEPS: u64 = 10_000_000;
    /// The steps of a run where the words name none.
    pub const DEFAULT_STEPS: u64 = 1_000_000;
    /// The conflicts of one query to the solver.
    pub const CONFLICTS: u64 = 100_000;
    /// The conflicts of one query where the words name none.
    pub const DEFAULT_CONFLICTS: u64 = 20_000;
}
