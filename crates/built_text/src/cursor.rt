//! What stands first among the tokens.

ghost use Rattle.std.specs.Prelude.{◌≡◌, ◌<◌, length, IfOk};
ghost use Rattle.gc0_base.specs.declared.place.Place.{Place};
ghost use Rattle.built_text.specs.declared.tree.Named.{Named};
ghost use Rattle.built_text.specs.declared.tree.Typed.{Typed};
ghost use Rattle.built_text.specs.Plan.{Plan, await, named, typed, run, is, starts, call_first, name_first, fixed_code, Answers};

use crate::token::{Fixed, Kind, Token};
use crate::tree::{Named, ReadFault, Shape, Typed};
use gc0_base::Place;
use sqlite_items::Items;
use std::alloc::Global;

// Where no token stands; each list of tokens ends in one, so no caller sees it.
pub const NOWHERE: Place = Place { line: 0, column: 0 };

// Whether a token is this keyword or symbol.
pub fn is(mark: Fixed, kind: &Kind) -> bool
    ensures { result ≡ is mark kind.now }
{
    match kind {
        Kind::Known(known) => code(mark) == code(*known),
        _ => false,
    }
}

fn code(mark: Fixed) -> u8
    ensures { result ≡ fixed_code mark }
{
    mark as u8
}

// The place of this keyword or symbol, which must stand first, and the tokens behind it.
pub fn expect(tokens: &[Token], mark: Fixed) -> Result<(Place, &[Token]), ReadFault>
    ensures reads { (next : Place → Plan) → Answers (λ x. run (next x.0) x.1.now) (run (await mark next) tokens.now) result }
    ensures shorter { IfOk result (λ x. length x.1.now < length tokens.now) }
{
    let Some((token, rest)) = tokens.split_first() else {
        return Err(ReadFault::NotBuilt(NOWHERE));
    };
    if is(mark, &token.kind) {
        Ok((token.place, rest))
    } else {
        Err(ReadFault::NotBuilt(token.place))
    }
}

// An identifier.
pub fn identifier(alloc: Global, tokens: &[Token]) -> Result<(Named, &[Token]), ReadFault>
    ensures reads { (next : Named → Plan) → Answers (λ x. run (next x.0) x.1.now) (run (named next) tokens.now) result }
    ensures shorter { IfOk result (λ x. length x.1.now < length tokens.now) }
{
    let Some((token, rest)) = tokens.split_first() else {
        return Err(ReadFault::NotBuilt(NOWHERE));
    };
    match &token.kind {
        Kind::Name(name) => {
            let name = Items::from_slice(alloc, name.as_slice())?;
            Ok((
                Named {
                    name,
                    place: token.place,
                },
                rest,
            ))
        }
        _ => Err(ReadFault::NotBuilt(token.place)),
    }
}

// The word of a type.
pub fn type_word(tokens: &[Token]) -> Result<(Typed, &[Token]), ReadFault>
    ensures reads { (next : Typed → Plan) → Answers (λ x. run (next x.0) x.1.now) (run (typed next) tokens.now) result }
    ensures shorter { IfOk result (λ x. length x.1.now < length tokens.now) }
{
    let Some((token, rest)) = tokens.split_first() else {
        return Err(ReadFault::NotBuilt(NOWHERE));
    };
    let place = token.place;
    match &token.kind {
        Kind::Known(Fixed::Int) => Ok((
            Typed {
                shape: Shape::Int,
                place,
            },
            rest,
        )),
        Kind::Known(Fixed::Bool) => Ok((
            Typed {
                shape: Shape::Bool,
                place,
            },
            rest,
        )),
        _ => Err(ReadFault::NotBuilt(place)),
    }
}

// Whether a call stands first: a name and a parenthesis.
pub fn begins_call(tokens: &[Token]) -> bool
    ensures { result ≡ call_first tokens.now }
{
    let Some((token, rest)) = tokens.split_first() else {
        return false;
    };
    match &token.kind {
        Kind::Name(_) => begins(Fixed::Open, rest),
        _ => false,
    }
}

// Whether this keyword or symbol stands first.
pub fn begins(mark: Fixed, tokens: &[Token]) -> bool
    ensures { result ≡ starts mark tokens.now }
{
    match tokens.split_first() {
        Some((token, _)) => is(mark, &token.kind),
        None => false,
    }
}
