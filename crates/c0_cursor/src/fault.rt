//! Why a part of the tokens was not read.

ghost use Rattle.std.specs.Prelude.{◌≡◌};
ghost use Rattle.c0_cursor.specs.declared.fault.Stop.TheVariants as stop;

use gc0_base::Place;
use std::alloc::{AllocError, AllocFailed};

/// Why a part of the tokens was not read.
#[derive(Clone, Copy, Debug, PartialEq, Eq)]
pub enum Stop {
    Syntax(Place),
    TooDeep(Place),
    Memory,
}

impl From<AllocError> for Stop {
    ghost from_gives = { λ _ e. e ≡ stop.Memory };

    fn from(_: AllocError) -> Self {
        Stop::Memory
    }
}

impl<T: Drop> From<AllocFailed<T>> for Stop {
    ghost from_gives = { λ _ e. e ≡ stop.Memory };

    fn from(_: AllocFailed<T>) -> Self {
        Stop::Memory
    }
}
