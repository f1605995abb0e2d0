//! How a call ended, and the exit status for it.
ghost use Rattle.std.specs.Prelude.{◌≡◌};
ghost use Rattle.gradual_top.specs.Lines.{code_of};

/// How a call ended.
#[derive(Clone, Copy, Debug, PartialEq, Eq)]
pub enum Status {
    /// The program returned.
    Returned,
    /// A contract of the program was false.
    Stopped,
    /// C0's own fault.
    Fault,
    /// The run took as many steps as it may.
    StepsUsed,
    /// A rule of the language is broken.
    Refused,
    /// A limit is passed.
    Limit,
    /// There is no such file.
    Absent,
    /// A file could not be read.
    ReadFault,
    /// An output could not be written.
    WriteFault,
    /// There was not memory enough.
    Memory,
    /// The text is none of the grammar that is built so far.
    NotBuilt,
    /// The words are none of the commands.
    Usage,
}

impl Status {
    /// The exit status of the program.
    pub fn code(self) -> u8
        ensures { result ≡ code_of self }
    {
        match self {
            Status::Returned => 0,
            Status::Stopped => 1,
            Status::Fault => 2,
            Status::StepsUsed => 3,
            Status::Refused => 4,
            Status::Limit => 7,
            Status::Absent => 8,
            Status::ReadFault => 9,
            Status::WriteFault => 10,
            Status::Memory => 12,
            Status::NotBuilt => 14,
            Status::Usage => 64,
        }
    }
}
