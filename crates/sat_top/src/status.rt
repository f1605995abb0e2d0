//! How a call ends.
ghost use Rattle.std.specs.Prelude.{◌≡◌};
ghost use Rattle.sat_top.specs.Lines.{code_of};

/// How a call ended.
#[derive(Clone, Copy, Debug, PartialEq, Eq)]
pub enum Status {
    /// There is an assignment that satisfies the formula.
    Satisfiable,
    /// There is none.
    Unsatisfiable,
    /// As many clauses were learnt as may be.
    Unknown,
    /// The file is none of the format.
    BadLine,
    /// The file has more bytes than it may have.
    Limit,
    /// There is no such file.
    Absent,
    /// A file could not be read.
    ReadFault,
    /// An output could not be written.
    WriteFault,
    /// There was not memory enough.
    Memory,
    /// The words are no command.
    Usage,
}

impl Status {
    /// The exit status of the program: for the first three that of the SAT competitions.
    pub fn code(self) -> u8
        ensures { result ≡ code_of self }
    {
        match self {
            Status::Satisfiable => 10,
            Status::Unsatisfiable => 20,
            Status::Unknown => 0,
            Status::BadLine => 4,
            Status::Limit => 7,
            Status::Absent => 8,
            Status::ReadFault => 9,
            Status::WriteFault => 11,
            Status::Memory => 12,
            Status::Usage => 64,
        }
    }
}
