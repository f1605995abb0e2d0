//! Parentheses.

ghost use Rattle.std.specs.Prelude.{◌≡◌, ◌++◌, OnOk};
ghost use Rattle.c0_layout.specs.Layout.{text_call};
ghost use Rattle.c0_layout.specs.Rounding.{open_text, close_text};

use crate::words::{push, push_string};
use std::alloc::AllocError;

/// What opens an expression that may have parentheses.
pub fn push_open(text: &mut Vec<u8>, rounded: bool) -> Result<(), AllocError>
    ensures { OnOk result (text.new.items ≡ text.old.items ++ open_text rounded) }
{
    if rounded { push(text, b"(") } else { Ok(()) }
}

/// What closes it.
pub fn push_close(text: &mut Vec<u8>, rounded: bool) -> Result<(), AllocError>
    ensures { OnOk result (text.new.items ≡ text.old.items ++ close_text rounded) }
{
    if rounded { push(text, b")") } else { Ok(()) }
}

/// A call with a string literal.
pub fn push_text_call(text: &mut Vec<u8>, name: &[u8], bytes: &[u8]) -> Result<(), AllocError>
    ensures { OnOk result (text.new.items ≡ text.old.items ++ text_call name.now bytes.now) }
{
    push(text, name)?;
    push(text, b"(")?;
    push_string(text, bytes)?;
    push(text, b")")
}
