//! Symbols: the longest that stands first.

ghost use Rattle.std.specs.Prelude.{◌≡◌, take};
ghost use Rattle.c0_lex.specs.Scan.{symbol_among, triples, pairs, singles, symbol_found, symbol_front};

use crate::bytes::head;
use crate::fault::LexFault;
use crate::front::Front;
use crate::token::{Symbol, TokenKind};
use gc0_base::Place;

// The longest symbol at the front of the text, which stands at the given place.
pub fn symbol_front(place: Place, text: &[u8]) -> Front
    ensures { result ≡ symbol_front place text.now }
{
    if let Some(symbol) = triple(head(text, 3)) {
        return Front::Found(3, TokenKind::Symbol(symbol));
    }
    if let Some(symbol) = pair(head(text, 2)) {
        return Front::Found(2, TokenKind::Symbol(symbol));
    }
    if let Some(symbol) = single(head(text, 1)) {
        return Front::Found(1, TokenKind::Symbol(symbol));
    }
    Front::Fault(LexFault::BadByte(place))
}

fn triple(text: &[u8]) -> Option<Symbol>
    ensures { result ≡ symbol_among triples text.now }
{
    if text == b"<<=".as_slice() {
        Some(Symbol::ShlAssign)
    } else if text == b">>=".as_slice() {
        Some(Symbol::ShrAssign)
    } else {
        None
    }
}

fn pair(text: &[u8]) -> Option<Symbol>
    ensures { result ≡ symbol_among pairs text.now }
{
    if text == b"->".as_slice() {
        Some(Symbol::Arrow)
    } else if text == b"+=".as_slice() {
        Some(Symbol::AddAssign)
    } else if text == b"-=".as_slice() {
        Some(Symbol::SubAssign)
    } else if text == b"*=".as_slice() {
        Some(Symbol::MulAssign)
    } else if text == b"/=".as_slice() {
        Some(Symbol::DivAssign)
    } else if text == b"%=".as_slice() {
        Some(Symbol::RemAssign)
    } else if text == b"&=".as_slice() {
        Some(Symbol::AndAssign)
    } else if text == b"^=".as_slice() {
        Some(Symbol::XorAssign)
    } else if text == b"|=".as_slice() {
        Some(Symbol::OrAssign)
    } else if text == b"++".as_slice() {
        Some(Symbol::Increment)
    } else if text == b"--".as_slice() {
        Some(Symbol::Decrement)
    } else if text == b"<<".as_slice() {
        Some(Symbol::ShiftLeft)
    } else if text == b">>".as_slice() {
        Some(Symbol::ShiftRight)
    } else if text == b"<=".as_slice() {
        Some(Symbol::LessEq)
    } else if text == b">=".as_slice() {
        Some(Symbol::GreaterEq)
    } else if text == b"==".as_slice() {
        Some(Symbol::Equal)
    } else if text == b"!=".as_slice() {
        Some(Symbol::NotEqual)
    } else if text == b"&&".as_slice() {
        Some(Symbol::Both)
    } else if text == b"||".as_slice() {
        Some(Symbol::Either)
    } else {
        None
    }
}

fn single(text: &[u8]) -> Option<Symbol>
    ensures { result ≡ symbol_among singles text.now }
{
    if text == b"(".as_slice() {
        Some(Symbol::OpenParen)
    } else if text == b")".as_slice() {
        Some(Symbol::CloseParen)
    } else if text == b"{".as_slice() {
        Some(Symbol::OpenBrace)
    } else if text == b"}".as_slice() {
        Some(Symbol::CloseBrace)
    } else if text == b",".as_slice() {
        Some(Symbol::Comma)
    } else if text == b";".as_slice() {
        Some(Symbol::Semicolon)
    } else if text == b"=".as_slice() {
        Some(Symbol::Assign)
    } else if text == b"!".as_slice() {
        Some(Symbol::Not)
    } else if text == b"~".as_slice() {
        Some(Symbol::Tilde)
    } else if text == b"-".as_slice() {
        Some(Symbol::Minus)
    } else if text == b"*".as_slice() {
        Some(Symbol::Star)
    } else if text == b"/".as_slice() {
        Some(Symbol::Slash)
    } else if text == b"%".as_slice() {
        Some(Symbol::Percent)
    } else if text == b"+".as_slice() {
        Some(Symbol::Plus)
    } else if text == b"<".as_slice() {
        Some(Symbol::Less)
    } else if text == b">".as_slice() {
        Some(Symbol::Greater)
    } else if text == b"&".as_slice() {
        Some(Symbol::And)
    } else if text == b"^".as_slice() {
        Some(Symbol::Xor)
    } else if text == b"|".as_slice() {
        Some(Symbol::Or)
    } else if text == b"?".as_slice() {
        Some(Symbol::Question)
    } else if text == b":".as_slice() {
        Some(Symbol::Colon)
    } else {
        None
    }
}
