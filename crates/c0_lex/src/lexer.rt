//! The whole text: its tokens, or its first fault.

ghost use Rattle.std.specs.Prelude.{◌≡◌, ◌≤◌, List, length, map, IfOk, IfErr};
ghost use Rattle.c0_lex.specs.declared.fault.LexFault.{LexFault};
ghost use Rattle.c0_lex.specs.Texts.{Lexeme, lexeme_of, mode_behind, HasTokens, HasFault, HasCause, GivesOrMemory, FailsOrMemory};

use crate::bytes::place_behind;
use crate::fault::LexFault;
use crate::front::{Front, front_of};
use crate::token::{Mode, Token, TokenKind};
use gc0_base::{Limits, Place};
use std::alloc::Global;

/// Cuts the text of a program, given in bytes, into its tokens, in the order of the text and with
/// its end last; or names its first lexical fault.
///
/// Comments and white space stand between tokens. `//` runs to the end of its line, and `/* */`
/// nests. `//@` opens an annotation that ends with its line, `/*@` one that ends with `@*/`;
/// inside one, `@` is white space, and `requires`, `ensures`, `loop_invariant`, `fold`,
/// `unfold`, `predicate`, `acc` and `\result` are keywords. Of the symbols the longest counts
/// (C0 Reference, "Lexical structure").
pub fn tokens<'a>(alloc: Global, source: &'a [u8]) -> Result<Vec<Token<'a>>, LexFault>
    requires { length source.now ≤ Limits.SOURCE }
    ensures tokens { IfOk result (λ v. HasTokens source.now (map lexeme_of v.items)) }
    ensures fault { IfErr result (λ e. HasCause source.now e) }
    // What has tokens is cut into these, and what has a fault is refused for it.
    ensures only { (ts : List Lexeme) → HasTokens source.now ts → GivesOrMemory ts result }
    ensures only_fault { (e : LexFault) → HasFault source.now e → FailsOrMemory e result }
{
    let mut tokens = Vec::new(alloc);
    let mut mode = Mode::Outside;
    let mut place = Place { line: 1, column: 1 };
    let mut at: usize = 0;
    loop {
        let rest = &source[at..];
        match front_of(mode, place, rest) {
            Front::Gap(size) => {
                place = place_behind(place, &rest[..size]);
                at += size;
            }
            Front::Found(size, kind) => {
                let text = &rest[..size];
                tokens.push(Token { text, kind, place })?;
                mode = mode_behind(mode, place, text, kind);
                place = place_behind(place, text);
                at += size;
            }
            Front::Fault(fault) => return Err(fault),
            Front::Finish => {
                tokens.push(Token {
                    text: rest,
                    kind: TokenKind::End,
                    place,
                })?;
                return Ok(tokens);
            }
        }
    }
}

// The mode behind a token of these bytes at this place.
fn mode_behind(mode: Mode, place: Place, text: &[u8], kind: TokenKind) -> Mode
    ensures { result ≡ mode_behind (record { mode = mode; place = place }) text.now kind }
{
    match kind {
        TokenKind::AnnotationBegin => {
            if text == b"//@".as_slice() {
                Mode::InLine
            } else {
                Mode::InBlock(place)
            }
        }
        TokenKind::AnnotationEnd => Mode::Outside,
        _ => mode,
    }
}
