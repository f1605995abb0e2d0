//! String literals: where one ends, and the bytes that it stands for.

ghost use Rattle.std.specs.Prelude.{◌≡◌, ◌≤◌, ◌<◌, ◌+◌, ◌^◌, ◌&&◌, nat_lt, slice_index, length, IsTrue, IfOk, Some, None};
ghost use Rattle.c0_lex.specs.Bytes.{is_quote, is_backslash, is_printable, begins_with};
ghost use Rattle.c0_lex.specs.Words.{escape_value, is_escape, escape_byte, unescaped};
ghost use Rattle.c0_lex.specs.Scan.{string_end, IsWithin};

use crate::bytes::is_printable;
use sqlite_items::Items;
use std::alloc::{AllocError, Global};

// How a string goes on behind its first quote: closed after so many bytes, a bad escape behind
// so many, or neither.
#[derive(Clone, Copy, Debug, PartialEq, Eq)]
pub enum StringEnd {
    Closed(usize),
    Escape(usize),
    Open,
}

// The byte that an escape stands for, by the byte behind its backslash.
fn escape_value(b: u8) -> Option<u8>
    ensures { result ≡ escape_value b }
{
    match b {
        b'n' => Some(10),
        b't' => Some(9),
        b'v' => Some(11),
        b'b' => Some(8),
        b'r' => Some(13),
        b'f' => Some(12),
        b'a' => Some(7),
        b'\\' => Some(92),
        b'\'' => Some(39),
        b'"' => Some(34),
        _ => None,
    }
}

pub fn string_end(text: &[u8]) -> StringEnd
    ensures exact { result ≡ string_end text.now }
    ensures within { IsWithin (length text.now) result }
{
    let mut at: usize = 0;
    while at < text.len() {
        if text[at] == 34 {
            return StringEnd::Closed(at + 1);
        }
        if text[at] == 92 {
            if !begins_escape(&text[at + 1..]) {
                return StringEnd::Escape(at);
            }
            at += 2;
        } else if is_printable(text[at]) {
            at += 1;
        } else {
            return StringEnd::Open;
        }
    }
    StringEnd::Open
}

// Whether the text begins with a byte that an escape has behind its backslash.
fn begins_escape(text: &[u8]) -> bool
    ensures exact { result ≡ begins_with is_escape text.now }
    ensures some { IsTrue result → 0 < length text.now }
{
    !text.is_empty() && escape_value(text[0]).is_some()
}

/// The bytes that the text of a `Quoted` token stands for: its quotes are left out, and each
/// escape gives one byte. Of any other text the first byte is left out, and what follows is
/// read up to a quote or the end, with a backslash before another byte than an escape's left out.
pub fn unescape(alloc: Global, text: &[u8]) -> Result<Items<u8>, AllocError>
    ensures { IfOk result (λ bytes. bytes ≡ unescaped text.now) }
{
    let mut bytes = Items::new(alloc);
    let mut at: usize = 1;
    while at < text.len() {
        let rest = &text[at..];
        if rest[0] == 34 {
            return Ok(bytes);
        }
        if has_escape(rest) {
            bytes.push(escape_byte(rest[1]))?;
            at += 2;
        } else {
            bytes.push(rest[0])?;
            at += 1;
        }
    }
    Ok(bytes)
}

// Whether the text begins with a backslash and a byte behind it.
fn has_escape(text: &[u8]) -> bool
    requires { 0 < length text.now }
    ensures exact { result ≡ (is_backslash (slice_index text.now 0) && nat_lt 1 (length text.now)) }
    ensures some { IsTrue result → 1 < length text.now }
{
    text[0] == 92 && text.len() > 1
}

fn escape_byte(b: u8) -> u8
    ensures { result ≡ escape_byte b }
{
    escape_value(b).unwrap_or(b)
}
