//! Words and numbers.

ghost use Rattle.std.specs.Prelude.{◌≡◌, ◌≤◌, ◌<◌, length, drop, IsTrue, Some, None, if◌then◌else◌};
ghost use Rattle.std.specs.List.{list_all};
ghost use Rattle.c0_lex.specs.Bytes.{is_digit, is_word_byte, is_hexadecimal_digit, begins, begins_with, ends_word};
ghost use Rattle.c0_lex.specs.Words.{keyword_bytes, decimal_value, is_decimal, digit_value, hexadecimal_value, is_hexadecimal, number_of};
ghost use Rattle.c0_lex.specs.Scan.{word_length, keyword_among, code_words, annotation_words, keyword_kind, word_kind};
ghost use Rattle.c0_lex.specs.Pieces.{is_inside};

use crate::bytes::{begins, is_digit, is_hexadecimal_digit, is_word_byte};
use crate::token::{Keyword, Mode, TokenKind};

impl Mode {
    pub fn is_inside(self) -> bool
        ensures { result ≡ is_inside self }
    {
        match self {
            Mode::Outside => false,
            Mode::InLine => true,
            Mode::InBlock(_) => true,
        }
    }
}

// How many bytes of a word stand at the front.
pub fn word_length(text: &[u8]) -> usize
    ensures exact { result ≡ word_length text.now }
    ensures within { result ≤ length text.now }
{
    for (i, b) in text.iter().enumerate() {
        if !is_word_byte(*b) {
            return i;
        }
    }
    text.len()
}

// Whether no word goes on here.
pub fn ends_word(text: &[u8]) -> bool
    ensures { result ≡ ends_word text.now }
{
    text.is_empty() || !is_word_byte(text[0])
}

// What a word of letters and digits is.
pub fn word_kind(mode: Mode, text: &[u8]) -> TokenKind
    ensures { result ≡ word_kind (is_inside mode) text.now }
{
    if let Some(keyword) = code_word(text) {
        return TokenKind::Keyword(keyword);
    }
    if mode.is_inside() {
        if let Some(keyword) = annotation_word(text) {
            return TokenKind::Keyword(keyword);
        }
    }
    TokenKind::Name
}

fn code_word(text: &[u8]) -> Option<Keyword>
    ensures { result ≡ keyword_among code_words text.now }
{
    if text == b"int".as_slice() {
        Some(Keyword::Int)
    } else if text == b"bool".as_slice() {
        Some(Keyword::Bool)
    } else if text == b"void".as_slice() {
        Some(Keyword::Void)
    } else if text == b"struct".as_slice() {
        Some(Keyword::Struct)
    } else if text == b"typedef".as_slice() {
        Some(Keyword::Typedef)
    } else if text == b"if".as_slice() {
        Some(Keyword::If)
    } else if text == b"else".as_slice() {
        Some(Keyword::Else)
    } else if text == b"while".as_slice() {
        Some(Keyword::While)
    } else if text == b"for".as_slice() {
        Some(Keyword::For)
    } else if text == b"return".as_slice() {
        Some(Keyword::Return)
    } else if text == b"assert".as_slice() {
        Some(Keyword::Assert)
    } else if text == b"error".as_slice() {
        Some(Keyword::Error)
    } else if text == b"true".as_slice() {
        Some(Keyword::True)
    } else if text == b"false".as_slice() {
        Some(Keyword::False)
    } else if text == b"NULL".as_slice() {
        Some(Keyword::Null)
    } else if text == b"alloc".as_slice() {
        Some(Keyword::Alloc)
    } else if text == b"string".as_slice() {
        Some(Keyword::String)
    } else if text == b"char".as_slice() {
        Some(Keyword::Char)
    } else if text == b"break".as_slice() {
        Some(Keyword::Break)
    } else if text == b"continue".as_slice() {
        Some(Keyword::Continue)
    } else if text == b"alloc_array".as_slice() {
        Some(Keyword::AllocArray)
    } else {
        None
    }
}

fn annotation_word(text: &[u8]) -> Option<Keyword>
    ensures { result ≡ keyword_among annotation_words text.now }
{
    if text == b"requires".as_slice() {
        Some(Keyword::Requires)
    } else if text == b"ensures".as_slice() {
        Some(Keyword::Ensures)
    } else if text == b"loop_invariant".as_slice() {
        Some(Keyword::LoopInvariant)
    } else if text == b"fold".as_slice() {
        Some(Keyword::Fold)
    } else if text == b"unfold".as_slice() {
        Some(Keyword::Unfold)
    } else if text == b"predicate".as_slice() {
        Some(Keyword::Predicate)
    } else if text == b"acc".as_slice() {
        Some(Keyword::Acc)
    } else {
        None
    }
}

// The word that a number stands for, if the text is a number.
pub fn number_of(text: &[u8]) -> Option<u32>
    ensures { result ≡ number_of text.now }
{
    match decimal(text) {
        Some(value) => Some(value),
        None => hexadecimal(text),
    }
}

// What decimal digits stand for, if they are a number.
fn decimal(text: &[u8]) -> Option<u32>
    ensures { result ≡ (if is_decimal text.now then Some (decimal_value text.now) else None) }
{
    if text.len() > 1 && text[0] == 48 {
        return None;
    }
    let mut value: u64 = 0;
    for b in text {
        if !is_digit(*b) {
            return None;
        }
        value = value.saturating_mul(10).saturating_add(u64::from(*b - 48));
    }
    if value > 2147483648 {
        return None;
    }
    Some(value as u32)
}

// What `0x` and hexadecimal digits stand for, if they are a number.
fn hexadecimal(text: &[u8]) -> Option<u32>
    ensures { result ≡ (if is_hexadecimal text.now then Some (hexadecimal_value (drop 2 text.now)) else None) }
{
    if !(begins(text, b"0x".as_slice()) || begins(text, b"0X".as_slice())) {
        return None;
    }
    if text.len() < 3 || text.len() > 10 {
        return None;
    }
    hexadecimal_digits(&text[2..])
}

fn hexadecimal_digits(text: &[u8]) -> Option<u32>
    requires { length text.now ≤ 8 }
    ensures { result ≡ (if list_all is_hexadecimal_digit text.now then Some (hexadecimal_value text.now) else None) }
{
    let mut value: u32 = 0;
    for b in text {
        if !is_hexadecimal_digit(*b) {
            return None;
        }
        value = 16 * value + u32::from(digit_value(*b));
    }
    Some(value)
}

fn digit_value(b: u8) -> u8
    ensures exact { result ≡ digit_value b }
    ensures below { IsTrue (is_hexadecimal_digit b) → result < 16 }
{
    if is_digit(b) {
        b - 48
    } else if 97 <= b {
        b - 87
    } else if 55 <= b {
        b - 55
    } else {
        0
    }
}
