//! Types.

ghost use Rattle.std.specs.Prelude.{◌≡◌, ◌≤◌, ◌<◌, [], length, IfOk};
ghost use Rattle.gc0_base.specs.declared.place.Place.{Place};
ghost use Rattle.parsed_tree.specs.declared.expressions.Base.{Base};
ghost use Rattle.parsed_tree.specs.declared.expressions.TypeName.{TypeName};
ghost use Rattle.c0_grammar.specs.Plan.{Plan, stars, struct_type, typed};
ghost use Rattle.c0_cursor.specs.Seen.{reading, starts_type, Parsed};

use crate::cursor::{NOWHERE, any_name, begins, expect, remaining};
use crate::fault::Stop;
use crate::marks::Mark;
use crate::names::Names;
use crate::part;
use c0_lex::{Keyword, Symbol, Token, TokenKind};
use gc0_base::Place;
use parsed_tree::{Base, TypeName};
use sqlite_items::Items;
use std::alloc::Global;

/// A type, and the tokens behind it.
pub fn type_name<'t, 'a>(
    alloc: Global,
    names: &Names<'a>,
    tokens: &'t [Token<'a>],
) -> Result<(TypeName, &'t [Token<'a>]), Stop>
    ensures reads { (next : TypeName → Plan) → Parsed (λ x. reading (next x.0) x.1.now) (reading (typed names.now next) tokens.now) result }
    ensures shorter { IfOk result (λ x. length x.1.now < length tokens.now) }
{
    let Some((token, rest)) = tokens.split_first() else {
        return Err(Stop::Syntax(NOWHERE));
    };
    let place = token.place;
    match token.kind {
        TokenKind::Keyword(Keyword::Int) => behind_base(place, Base::Int, rest),
        TokenKind::Keyword(Keyword::Bool) => behind_base(place, Base::Bool, rest),
        TokenKind::Keyword(Keyword::Struct) => behind_struct(alloc, place, rest),
        TokenKind::Name if names.contains(token.text) => {
            let name = Items::from_slice(alloc, token.text)?;
            behind_base(place, Base::Alias(name), rest)
        }
        _ => Err(Stop::Syntax(place)),
    }
}

/// Whether a type stands first: one of its words, or the name of a typedef.
pub fn begins_type<'t, 'a>(names: &Names<'a>, tokens: &'t [Token<'a>]) -> bool
    ensures { result ≡ starts_type names.now tokens.now }
{
    let Some((token, _)) = tokens.split_first() else {
        return false;
    };
    match token.kind {
        TokenKind::Keyword(Keyword::Int | Keyword::Bool | Keyword::Struct) => true,
        TokenKind::Name => names.contains(token.text),
        _ => false,
    }
}

// A struct's name and `*`, behind the word `struct` at this place.
fn behind_struct<'t, 'a>(
    alloc: Global,
    place: Place,
    tokens: &'t [Token<'a>],
) -> Result<(TypeName, &'t [Token<'a>]), Stop>
    ensures reads { (next : TypeName → Plan) → Parsed (λ x. reading (next x.0) x.1.now) (reading (struct_type next place) tokens.now) result }
    ensures shorter { IfOk result (λ x. length x.1.now < length tokens.now) }
{
    let (name, rest) = part!(any_name(alloc, tokens));
    behind_base(place, Base::Struct(name), rest)
}

/// Every `*` that follows a type's base, whose first token stands at this place.
pub fn behind_base<'t, 'a>(
    place: Place,
    base: Base,
    tokens: &'t [Token<'a>],
) -> Result<(TypeName, &'t [Token<'a>]), Stop>
    ensures reads { (next : TypeName → Plan) → Parsed (λ x. reading (next x.0) x.1.now) (reading (stars place base next) tokens.now) result }
    ensures shorter { IfOk result (λ x. length x.1.now ≤ length tokens.now) }
{
    let (stars, rest) = part!(stars_behind(tokens));
    Ok((TypeName { place, base, stars }, rest))
}

// How many `*` stand first, and the tokens behind them.
fn stars_behind<'t, 'a>(tokens: &'t [Token<'a>]) -> Result<(u32, &'t [Token<'a>]), Stop>
    ensures reads { (at : Place) → (base : Base) → (next : TypeName → Plan) → Parsed (λ x. reading (next (record { place = at; base = base; stars = x.0 })) x.1.now) (reading (stars at base next) tokens.now) result }
    ensures shorter { IfOk result (λ x. length x.1.now ≤ length tokens.now) }
{
    let mut stars: u32 = 0;
    let mut rest = tokens;
    while begins(Mark::Sign(Symbol::Star), rest) {
        let (_, behind) = part!(expect(Mark::Sign(Symbol::Star), rest));
        // No memory holds so many tokens.
        let Some(more) = stars.checked_add(1) else {
            return Err(Stop::Memory);
        };
        stars = more;
        rest = remaining(behind);
    }
    Ok((stars, rest))
}
