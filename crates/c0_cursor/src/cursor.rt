//! The tokens that stand first, one at a time.

ghost use Rattle.std.specs.Prelude.{◌≡◌, ◌<◌, [], length, IfOk};
ghost use Rattle.gc0_base.specs.declared.place.Place.{Place};
ghost use Rattle.parsed_tree.specs.declared.expressions.Named.{Named};
ghost use Rattle.parsed_tree.specs.declared.expressions.Text.{Text};
ghost use Rattle.parsed_tree.specs.declared.items.Library.{Library};
ghost use Rattle.c0_grammar.specs.Plan.{Plan, await, name, text, library_name_of};
ghost use Rattle.c0_cursor.specs.Seen.{reading, starts, starts_text, mark_view, Parsed};

use crate::fault::Stop;
use crate::marks::Mark;
use crate::names::Names;
use c0_lex::{Token, TokenKind, unescape};
use gc0_base::Place;
use parsed_tree::{Library, Named, Text};
use sqlite_items::Items;
use std::alloc::Global;

/// Where no token stands; each list of tokens ends in one, so no caller sees it.
pub const NOWHERE: Place = Place { line: 0, column: 0 };

/// The same tokens, as a loop may go on with them: the checker joins what a call gave with what the
/// loop began with, but not what a pattern bound.
pub fn remaining<'t, 'a>(tokens: &'t [Token<'a>]) -> &'t [Token<'a>]
    ensures { result.now ≡ tokens.now }
{
    tokens
}

/// The place of this token, which must stand first, and the tokens behind it.
pub fn expect<'t, 'a>(mark: Mark, tokens: &'t [Token<'a>]) -> Result<(Place, &'t [Token<'a>]), Stop>
    ensures reads { (next : Place → Plan) → Parsed (λ x. reading (next x.0) x.1.now) (reading (await 0 (mark_view mark) next) tokens.now) result }
    ensures shorter { IfOk result (λ x. length x.1.now < length tokens.now) }
{
    let Some((token, rest)) = tokens.split_first() else {
        return Err(Stop::Syntax(NOWHERE));
    };
    if mark.is(token.kind) {
        Ok((token.place, rest))
    } else {
        Err(Stop::Syntax(token.place))
    }
}

/// Whether this token stands first.
pub fn begins<'t, 'a>(mark: Mark, tokens: &'t [Token<'a>]) -> bool
    ensures { result ≡ starts (mark_view mark) tokens.now }
{
    match tokens.split_first() {
        Some((token, _)) => mark.is(token.kind),
        None => false,
    }
}

/// A name, which may be that of a typedef.
pub fn any_name<'t, 'a>(
    alloc: Global,
    tokens: &'t [Token<'a>],
) -> Result<(Named, &'t [Token<'a>]), Stop>
    ensures reads { (next : Named → Plan) → Parsed (λ x. reading (next x.0) x.1.now) (reading (name [] next) tokens.now) result }
    ensures shorter { IfOk result (λ x. length x.1.now < length tokens.now) }
{
    let Some((token, rest)) = tokens.split_first() else {
        return Err(Stop::Syntax(NOWHERE));
    };
    match token.kind {
        TokenKind::Name => {
            let name = Items::from_slice(alloc, token.text)?;
            let place = token.place;
            Ok((Named { name, place }, rest))
        }
        _ => Err(Stop::Syntax(token.place)),
    }
}

/// A name that is no typedef's.
pub fn free_name<'t, 'a>(
    alloc: Global,
    names: &Names<'a>,
    tokens: &'t [Token<'a>],
) -> Result<(Named, &'t [Token<'a>]), Stop>
    ensures reads { (next : Named → Plan) → Parsed (λ x. reading (next x.0) x.1.now) (reading (name names.now next) tokens.now) result }
    ensures shorter { IfOk result (λ x. length x.1.now < length tokens.now) }
{
    let Some((token, rest)) = tokens.split_first() else {
        return Err(Stop::Syntax(NOWHERE));
    };
    match token.kind {
        TokenKind::Name if !names.contains(token.text) => {
            let name = Items::from_slice(alloc, token.text)?;
            let place = token.place;
            Ok((Named { name, place }, rest))
        }
        _ => Err(Stop::Syntax(token.place)),
    }
}

/// A string literal, as the bytes that it stands for.
pub fn string<'t, 'a>(
    alloc: Global,
    tokens: &'t [Token<'a>],
) -> Result<(Text, &'t [Token<'a>]), Stop>
    ensures reads { (next : Text → Plan) → Parsed (λ x. reading (next x.0) x.1.now) (reading (text next) tokens.now) result }
    ensures shorter { IfOk result (λ x. length x.1.now < length tokens.now) }
{
    let Some((token, rest)) = tokens.split_first() else {
        return Err(Stop::Syntax(NOWHERE));
    };
    match token.kind {
        TokenKind::Quoted => {
            let bytes = unescape(alloc, token.text)?;
            let place = token.place;
            Ok((Text { bytes, place }, rest))
        }
        _ => Err(Stop::Syntax(token.place)),
    }
}

/// Whether a string literal stands first.
pub fn begins_string<'t, 'a>(tokens: &'t [Token<'a>]) -> bool
    ensures { result ≡ starts_text tokens.now }
{
    match tokens.split_first() {
        Some((token, _)) => matches!(token.kind, TokenKind::Quoted),
        None => false,
    }
}

/// The name of a library.
pub fn library<'t, 'a>(tokens: &'t [Token<'a>]) -> Result<(Library, &'t [Token<'a>]), Stop>
    ensures reads { (next : Library → Plan) → Parsed (λ x. reading (next x.0) x.1.now) (reading (library_name_of next) tokens.now) result }
    ensures shorter { IfOk result (λ x. length x.1.now < length tokens.now) }
{
    let Some((token, rest)) = tokens.split_first() else {
        return Err(Stop::Syntax(NOWHERE));
    };
    match token.kind {
        TokenKind::Name if token.text == b"conio".as_slice() => Ok((Library::Conio, rest)),
        TokenKind::Name if token.text == b"intio".as_slice() => Ok((Library::Intio, rest)),
        _ => Err(Stop::Syntax(token.place)),
    }
}
