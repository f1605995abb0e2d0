//! Lexical faults.

ghost use Rattle.std.specs.Prelude.{◌≡◌};
ghost use Rattle.c0_lex.specs.declared.fault.LexFault.TheVariants.{Memory};

use gc0_base::Place;
use std::alloc::{AllocError, AllocFailed};
use thiserror::Error;

/// Why a text has no tokens: its first lexical fault and where it stands, or want of memory.
#[derive(Clone, Copy, Debug, PartialEq, Eq, Error)]
pub enum LexFault {
    /// A byte that stands in no token, comment or string.
    #[error("bad byte at {}:{}", .0.line, .0.column)]
    BadByte(Place),
    /// A word that begins with a digit and is no number. The place of its first byte.
    #[error("bad number at {}:{}", .0.line, .0.column)]
    BadNumber(Place),
    /// An escape that C0 does not have, in a string. The place of its backslash.
    #[error("bad escape at {}:{}", .0.line, .0.column)]
    BadEscape(Place),
    /// A comment or an annotation that is not closed. The place of its first byte.
    #[error("open comment at {}:{}", .0.line, .0.column)]
    OpenComment(Place),
    /// A string that is not closed on its line. The place of its first byte.
    #[error("open string at {}:{}", .0.line, .0.column)]
    OpenString(Place),
    /// An annotation opened inside another. The place of its first byte.
    #[error("nested annotation at {}:{}", .0.line, .0.column)]
    NestedAnnotation(Place),
    /// There was not memory enough.
    #[error("out of memory")]
    Memory,
}

impl From<AllocError> for LexFault {
    ghost from_gives = { λ _ e. e ≡ Memory };

    fn from(_: AllocError) -> Self {
        LexFault::Memory
    }
}

impl<T: Drop> From<AllocFailed<T>> for LexFault {
    ghost from_gives = { λ _ e. e ≡ Memory };

    fn from(_: AllocFailed<T>) -> Self {
        LexFault::Memory
    }
}
