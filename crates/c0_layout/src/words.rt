//! Bytes, numbers and strings at the end of a text.

ghost use Rattle.std.specs.Prelude.{◌≡◌, ◌<◌, [], ◌∷◌, ◌++◌, OnOk};
ghost use Rattle.c0_grammar.specs.Written.{truth_word};
ghost use Rattle.c0_lex.specs.Words.{keyword_bytes};
ghost use Rattle.c0_layout.specs.Lists.{all_text};
ghost use Rattle.c0_layout.specs.Literals.{capital_digit, eight_digits, literal_text, escape_letter, character_text, string_text};

use gc0_base::Word;
use itoa::Buffer;
use std::alloc::AllocError;

/// Bytes at the end of a text.
pub fn push(text: &mut Vec<u8>, bytes: &[u8]) -> Result<(), AllocError>
    ensures { OnOk result (text.new.items ≡ text.old.items ++ bytes.now) }
{
    text.extend_from_slice(bytes)?;
    Ok(())
}

/// The word of a truth value.
pub fn truth_bytes(truth: bool) -> &'static [u8]
    ensures { result.now ≡ keyword_bytes (truth_word truth) }
{
    if truth { b"true" } else { b"false" }
}

fn capital_digit(digit: u32) -> u8
    requires { digit < 16 }
    ensures { result ≡ capital_digit digit }
{
    if digit < 10 {
        48 + digit as u8
    } else {
        55 + digit as u8
    }
}

fn push_digit(text: &mut Vec<u8>, digit: u32) -> Result<(), AllocError>
    requires { digit < 16 }
    ensures { OnOk result (text.new.items ≡ text.old.items ++ capital_digit digit ∷ []) }
{
    text.push(capital_digit(digit))?;
    Ok(())
}

// The eight hexadecimal digits of a number.
fn push_digits(text: &mut Vec<u8>, number: u32) -> Result<(), AllocError>
    ensures { OnOk result (text.new.items ≡ text.old.items ++ eight_digits number) }
{
    push_digit(text, number / 0x1000_0000)?;
    push_digit(text, number / 0x100_0000 % 16)?;
    push_digit(text, number / 0x10_0000 % 16)?;
    push_digit(text, number / 0x1_0000 % 16)?;
    push_digit(text, number / 0x1000 % 16)?;
    push_digit(text, number / 0x100 % 16)?;
    push_digit(text, number / 0x10 % 16)?;
    push_digit(text, number % 16)
}

/// A number literal.
pub fn push_literal(text: &mut Vec<u8>, word: Word) -> Result<(), AllocError>
    ensures { OnOk result (text.new.items ≡ text.old.items ++ literal_text word.0) }
{
    if word.0 <= 0x8000_0000 {
        let mut buffer = Buffer::new();
        push(text, buffer.format(word.0).as_bytes())
    } else {
        push(text, b"0x")?;
        push_digits(text, word.0)
    }
}

// The letter of the escape by which a byte is printed.
fn escape_letter(byte: u8) -> Option<u8>
    ensures { result ≡ escape_letter byte }
{
    match byte {
        10 => Some(b'n'),
        9 => Some(b't'),
        11 => Some(b'v'),
        8 => Some(b'b'),
        13 => Some(b'r'),
        12 => Some(b'f'),
        7 => Some(b'a'),
        92 => Some(b'\\'),
        34 => Some(b'"'),
        _ => None,
    }
}

// A byte of a string.
fn push_character(text: &mut Vec<u8>, byte: u8) -> Result<(), AllocError>
    ensures { OnOk result (text.new.items ≡ text.old.items ++ character_text byte) }
{
    match escape_letter(byte) {
        Some(letter) => push(text, &[92, letter]),
        None => push(text, &[byte]),
    }
}

fn push_characters(text: &mut Vec<u8>, bytes: &[u8]) -> Result<(), AllocError>
    ensures { OnOk result (text.new.items ≡ text.old.items ++ all_text character_text bytes.now) }
{
    for byte in bytes {
        push_character(text, *byte)?;
    }
    Ok(())
}

/// A string literal with its quotes.
pub fn push_string(text: &mut Vec<u8>, bytes: &[u8]) -> Result<(), AllocError>
    ensures { OnOk result (text.new.items ≡ text.old.items ++ string_text bytes.now) }
{
    push(text, b"\"")?;
    push_characters(text, bytes)?;
    push(text, b"\"")
}
