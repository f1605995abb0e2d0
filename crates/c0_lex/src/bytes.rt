//! Kinds of bytes, and how far a place moves.

ghost use Rattle.std.specs.Prelude.{◌≡◌, ◌≤◌, ◌<◌, ◌+◌, ◌^◌, length, take, fold, IsTrue};
ghost use Rattle.gc0_base.specs.Places.{moved};
ghost use Rattle.c0_lex.specs.Bytes.{is_space, is_digit, is_letter, is_word_byte, is_hexadecimal_digit, is_printable, begins, ends_line};

use gc0_base::Place;

pub fn is_space(b: u8) -> bool
    ensures { result ≡ is_space b }
{
    (9 <= b && b <= 13) || b == 32
}

pub fn is_digit(b: u8) -> bool
    ensures { result ≡ is_digit b }
{
    48 <= b && b <= 57
}

pub fn is_letter(b: u8) -> bool
    ensures { result ≡ is_letter b }
{
    (65 <= b && b <= 90) || (97 <= b && b <= 122) || b == 95
}

pub fn is_word_byte(b: u8) -> bool
    ensures { result ≡ is_word_byte b }
{
    is_digit(b) || is_letter(b)
}

pub fn is_hexadecimal_digit(b: u8) -> bool
    ensures { result ≡ is_hexadecimal_digit b }
{
    is_digit(b) || (65 <= b && b <= 70) || (97 <= b && b <= 102)
}

pub fn is_printable(b: u8) -> bool
    ensures { result ≡ is_printable b }
{
    32 <= b && b <= 126
}

// Whether the text begins with these bytes.
pub fn begins(text: &[u8], front: &[u8]) -> bool
    ensures exact { result ≡ begins text.now front.now }
    ensures within { IsTrue result → length front.now ≤ length text.now }
{
    text.starts_with(front)
}

// The first bytes, or all if there are fewer.
pub fn head(text: &[u8], count: usize) -> &[u8]
    ensures { result.now ≡ take count text.now }
{
    if count < text.len() {
        &text[..count]
    } else {
        text
    }
}

// The place behind these bytes, of which the first stands at the given place.
pub fn place_behind(place: Place, bytes: &[u8]) -> Place
    requires lines { place.line + length bytes.now < 2 ^ 32 }
    requires columns { place.column + length bytes.now < 2 ^ 32 }
    ensures moved { result ≡ fold moved place bytes.now }
    ensures lines { result.line ≤ place.line + length bytes.now }
    ensures columns { result.column ≤ place.column + length bytes.now }
{
    let mut behind = place;
    for b in bytes {
        if *b == 10 {
            behind = Place {
                line: behind.line + 1,
                column: 1,
            };
        } else {
            behind = Place {
                line: behind.line,
                column: behind.column + 1,
            };
        }
    }
    behind
}
