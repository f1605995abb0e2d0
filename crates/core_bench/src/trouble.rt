//! Why nothing is measured.

use core_lower::LowerFault;
use std::alloc::AllocError;

/// Why nothing is measured.
#[derive(Clone, Copy, Debug, PartialEq, Eq)]
pub enum Trouble {
    /// The words ask for nothing.
    Usage,
    /// The file can't be had.
    Absent,
    /// The text is no program.
    NoProgram,
    /// The program passes a limit.
    Limit,
    /// The clock failed.
    Clock,
    /// There was not memory enough.
    Memory,
}

impl Trouble {
    /// The line that says it.
    pub fn line(self) -> &'static [u8] {
        match self {
            Trouble::Usage => b"usage: core_bench ROUNDS FILE\n",
            Trouble::Absent => b"no such file\n",
            Trouble::NoProgram => b"no program\n",
            Trouble::Limit => b"limit\n",
            Trouble::Clock => b"no clock\n",
            Trouble::Memory => b"memory\n",
        }
    }
}

impl From<AllocError> for Trouble {
    fn from(_: AllocError) -> Trouble {
        Trouble::Memory
    }
}

impl From<LowerFault> for Trouble {
    fn from(fault: LowerFault) -> Trouble {
        match fault {
            LowerFault::Limit(_) => Trouble::Limit,
            LowerFault::Shared(_) => Trouble::NoProgram,
            LowerFault::Memory => Trouble::Memory,
        }
    }
}
