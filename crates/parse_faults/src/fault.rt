//! Why tokens were not read.

ghost use Rattle.std.specs.Prelude.{◌≡◌};
ghost use Rattle.parse_faults.specs.declared.fault.ParseFault.TheVariants as fault;

use gc0_base::Place;
use std::alloc::AllocError;
use thiserror::Error;

/// Why tokens were not read: their first fault and where it stands, or want of memory.
#[derive(Clone, Copy, Debug, PartialEq, Eq, Error)]
pub enum ParseFault {
    /// Here stands the first token that, with those before it, begins no program.
    #[error("syntax fault at {}:{}", .0.line, .0.column)]
    Syntax(Place),
    /// Here stands the first token such that every program that begins so has a path of more
    /// than 100 nodes. A statement, a block, a pair of parentheses round an expression, a call,
    /// an instance, an `acc` and an operator are nodes, and so is `->`; `=` and its like are none.
    #[error("too deep at {}:{}", .0.line, .0.column)]
    TooDeep(Place),
    /// The word of a clause of a contract stands here, behind a head that ends with `;`.
    #[error("contract on prototype at {}:{}", .0.line, .0.column)]
    ContractOnPrototype(Place),
    /// Here stands the `->` of a read in an operand of `&&`, `||` or `?:` inside a value or a
    /// condition of a formula.
    #[error("deep read at {}:{}", .0.line, .0.column)]
    DeepRead(Place),
    /// There was not memory enough.
    #[error("out of memory")]
    Memory,
}

impl From<AllocError> for ParseFault {
    ghost from_gives = { λ _ e. e ≡ fault.Memory };

    fn from(_: AllocError) -> Self {
        ParseFault::Memory
    }
}
