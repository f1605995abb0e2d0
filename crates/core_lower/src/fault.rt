//! Why there is no core.

ghost use Rattle.std.specs.Prelude.{◌≡◌};
ghost use Rattle.core_lower.specs.declared.fault.LowerFault.TheVariants as fault;

use gc0_base::Place;
use program_limits::Limit;
use std::alloc::AllocError;
use thiserror::Error;

/// Why there is no core of a program.
#[derive(Clone, Copy, Debug, PartialEq, Eq, Error)]
pub enum LowerFault {
    /// The program passes this limit.
    #[error("a limit is passed: {0:?}")]
    Limit(Limit),
    /// Two tokens of one kind stand at this place, so that two sites would be one. A text that was
    /// read has none.
    #[error("two sites are one: {0:?}")]
    Shared(Place),
    /// There was not memory enough, or a function has 2^32 temporaries or decisions.
    #[error("out of memory")]
    Memory,
}

impl From<AllocError> for LowerFault {
    ghost from_gives = { λ _ e. e ≡ fault.Memory };

    fn from(_: AllocError) -> Self {
        LowerFault::Memory
    }
}
