//! What stands first in the rest of a text: a token, a gap or a fault.

ghost use Rattle.std.specs.Prelude.{◌≡◌, ◌≤◌, ◌<◌, ◌+◌, ◌^◌, length, take, drop, fold};
ghost use Rattle.gc0_base.specs.Places.{moved};
ghost use Rattle.c0_lex.specs.Bytes.{is_word_byte, is_space, is_digit, begins, begins_with, ends_word};
ghost use Rattle.c0_lex.specs.Texts.{begins_outcome};
ghost use Rattle.c0_lex.specs.Scan.{front, word_front, number_front, space_front, mark_front, at_front, comment_front, comment_found, annotation_front, string_found, string_end, last_front, IsWithinText};

use crate::bytes::{begins, is_digit, is_space, is_word_byte, place_behind};
use crate::comments::{comment_length, line_length};
use crate::fault::LexFault;
use crate::strings::{StringEnd, string_end};
use crate::symbols::symbol_front;
use crate::token::{Keyword, Mode, TokenKind};
use crate::words::{ends_word, number_of, word_kind, word_length};
use gc0_base::{Place, Word};

// What stands at the front of a text: so many bytes between tokens, a token of so many bytes,
// a fault, or the end.
#[derive(Clone, Copy, Debug, PartialEq, Eq)]
pub enum Front {
    Gap(usize),
    Found(usize, TokenKind),
    Fault(LexFault),
    Finish,
}

// What stands at the front of the text, in this mode and at this place.
#[tactic(auto, using(crate::proofs::Steps::front_within))]
pub fn front_of(mode: Mode, place: Place, text: &[u8]) -> Front
    requires lines { place.line + length text.now < 2 ^ 32 }
    requires columns { place.column + length text.now < 2 ^ 32 }
    ensures exact { result ≡ front mode place text.now }
    ensures within { IsWithinText (length text.now) result }
{
    if text.is_empty() {
        return last_front(mode);
    }
    if is_word_byte(text[0]) {
        word_front(mode, place, text)
    } else if is_space(text[0]) {
        space_front(mode, text[0])
    } else {
        mark_front(mode, place, text)
    }
}

fn last_front(mode: Mode) -> Front
    ensures { result ≡ last_front mode }
{
    match mode {
        Mode::Outside => Front::Finish,
        Mode::InLine => Front::Found(0, TokenKind::AnnotationEnd),
        Mode::InBlock(opened) => Front::Fault(LexFault::OpenComment(opened)),
    }
}

fn word_front(mode: Mode, place: Place, text: &[u8]) -> Front
    requires { 0 < length text.now }
    ensures { result ≡ word_front mode place text.now }
{
    let size = word_length(text);
    let word = &text[..size];
    if is_digit(text[0]) {
        match number_of(word) {
            Some(number) => Front::Found(size, TokenKind::Number(Word(number))),
            None => Front::Fault(LexFault::BadNumber(place)),
        }
    } else {
        Front::Found(size, word_kind(mode, word))
    }
}

fn space_front(mode: Mode, b: u8) -> Front
    ensures { result ≡ space_front mode b }
{
    match mode {
        Mode::InLine => {
            if b == 10 {
                Front::Found(0, TokenKind::AnnotationEnd)
            } else {
                Front::Gap(1)
            }
        }
        _ => Front::Gap(1),
    }
}

// What begins with a byte that is neither white space nor of a word.
fn mark_front(mode: Mode, place: Place, text: &[u8]) -> Front
    requires some { 0 < length text.now }
    requires lines { place.line + length text.now < 2 ^ 32 }
    requires columns { place.column + length text.now < 2 ^ 32 }
    ensures { result ≡ mark_front mode place text.now }
{
    if text[0] == 34 {
        string_front(place, text)
    } else if begins(text, b"//".as_slice()) || begins(text, b"/*".as_slice()) {
        comment_front(mode, place, text)
    } else if text[0] == 64 {
        at_front(mode, place, text)
    } else if begins(text, b"#use".as_slice()) {
        Front::Found(4, TokenKind::Use)
    } else if begins_outcome(text) && mode.is_inside() {
        Front::Found(7, TokenKind::Keyword(Keyword::Outcome))
    } else {
        symbol_front(place, text)
    }
}

fn string_front(place: Place, text: &[u8]) -> Front
    requires some { 0 < length text.now }
    requires lines { place.line + length text.now < 2 ^ 32 }
    requires columns { place.column + length text.now < 2 ^ 32 }
    ensures { result ≡ string_found place text.now (string_end (drop 1 text.now)) }
{
    match string_end(&text[1..]) {
        StringEnd::Closed(size) => Front::Found(size + 1, TokenKind::Quoted),
        StringEnd::Escape(size) => {
            Front::Fault(LexFault::BadEscape(place_behind(place, &text[..size + 1])))
        }
        StringEnd::Open => Front::Fault(LexFault::OpenString(place)),
    }
}

// What begins with `//` or `/*`.
fn comment_front(mode: Mode, place: Place, text: &[u8]) -> Front
    requires some { 1 < length text.now }
    ensures { result ≡ comment_front mode place text.now }
{
    if begins(text, b"//@".as_slice()) || begins(text, b"/*@".as_slice()) {
        return annotation_front(mode, place);
    }
    if begins(text, b"//".as_slice()) {
        return Front::Gap(line_length(text));
    }
    match comment_length(&text[2..]) {
        Some(size) => Front::Gap(size + 2),
        None => Front::Fault(LexFault::OpenComment(place)),
    }
}

fn annotation_front(mode: Mode, place: Place) -> Front
    ensures { result ≡ annotation_front mode place }
{
    if mode.is_inside() {
        Front::Fault(LexFault::NestedAnnotation(place))
    } else {
        Front::Found(3, TokenKind::AnnotationBegin)
    }
}

// What begins with `@`.
fn at_front(mode: Mode, place: Place, text: &[u8]) -> Front
    ensures { result ≡ at_front mode place text.now }
{
    match mode {
        Mode::Outside => Front::Fault(LexFault::BadByte(place)),
        Mode::InLine => Front::Gap(1),
        Mode::InBlock(_) => {
            if begins(text, b"@*/".as_slice()) {
                Front::Found(3, TokenKind::AnnotationEnd)
            } else {
                Front::Gap(1)
            }
        }
    }
}

// Whether the text begins with `\result` as a whole word.
fn begins_outcome(text: &[u8]) -> bool
    ensures { result ≡ begins_outcome text.now }
{
    begins(text, b"\\result".as_slice()) && ends_word(&text[7..])
}
