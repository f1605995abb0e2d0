//! The word that stands at a place of a text.
ghost use Rattle.std.specs.Prelude.{◌≡◌};
ghost use Rattle.gradual_top.specs.Words.{word_at, behind_line, behind_lines, behind_columns, front_word, is_word_byte};

use gc0_base::Place;

/// The word that stands at a place of a text: its longest run of letters, digits and `_` there.
pub fn word_at(text: &[u8], place: Place) -> &[u8]
    ensures { result.now ≡ word_at text.now place }
{
    front_word(behind_columns(behind_lines(text, place.line), place.column))
}

// The text from a line on, counted from 1.
fn behind_lines(text: &[u8], line: u32) -> &[u8]
    ensures { result.now ≡ behind_lines text.now line }
{
    let mut rest = text;
    for ended in 1..line {
        rest = behind_line(rest);
    }
    rest
}

// The text behind the end of its first line.
fn behind_line(text: &[u8]) -> &[u8]
    ensures { result.now ≡ behind_line text.now }
{
    let mut rest = text;
    while let Some((byte, behind)) = rest.split_first() {
        if *byte == b'\n' {
            return behind;
        }
        rest = behind;
    }
    rest
}

// The text from a column on, counted from 1.
fn behind_columns(text: &[u8], column: u32) -> &[u8]
    ensures { result.now ≡ behind_columns text.now column }
{
    let at = (column as usize).saturating_sub(1);
    if at > text.len() {
        return &text[text.len()..];
    }
    &text[at..]
}

fn front_word(text: &[u8]) -> &[u8]
    ensures { result.now ≡ front_word text.now }
{
    let mut at = 0;
    while at < text.len() && is_word_byte(text[at]) {
        at += 1;
    }
    &text[..at]
}

fn is_word_byte(byte: u8) -> bool
    ensures { result ≡ is_word_byte byte }
{
    byte.is_ascii_alphanumeric() || byte == b'_'
}
