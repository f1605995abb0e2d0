//! What the tokens of a text are to the grammar of what is built.
ghost use Rattle.std.specs.Prelude.{◌≡◌, IfOk};
ghost use Rattle.built_text.specs.Tokens.{keyword_kind, symbol_kind, is_unbuilt_call, name_kind, built_kind, built, all_built, CutEndsLast};

use crate::token::{Fixed, Kind, Token};
use c0_lex::{Keyword, Symbol, TokenKind};
use sqlite_items::Items;
use std::alloc::{AllocError, Global};

/// The tokens that a text is cut into end with its end.
pub fn cut_ends_last()
    ensures { CutEndsLast }
{}

// The tokens of a text as the grammar takes them.
pub fn built_tokens(alloc: Global, tokens: &[c0_lex::Token<'_>]) -> Result<Vec<Token>, AllocError>
    ensures { IfOk result (λ v. v.items ≡ all_built tokens.now) }
{
    let mut taken = Vec::new(alloc);
    for token in tokens {
        taken.push(built_token(alloc, token)?)?;
    }
    Ok(taken)
}

fn built_token(alloc: Global, token: &c0_lex::Token<'_>) -> Result<Token, AllocError>
    ensures { IfOk result (λ t. t ≡ built token.now) }
{
    let kind = built_kind(alloc, token.kind, token.text)?;
    Ok(Token {
        kind,
        place: token.place,
    })
}

// What a token of this kind and these bytes is.
fn built_kind(alloc: Global, kind: TokenKind, bytes: &[u8]) -> Result<Kind, AllocError>
    ensures { IfOk result (λ k. k ≡ built_kind kind bytes.now) }
{
    match kind {
        TokenKind::Name => name_kind(alloc, bytes),
        TokenKind::Keyword(keyword) => Ok(keyword_kind(keyword)),
        TokenKind::Number(word) => Ok(Kind::Number(word)),
        TokenKind::Symbol(symbol) => Ok(symbol_kind(symbol)),
        TokenKind::AnnotationBegin => Ok(Kind::Known(Fixed::Annotation)),
        TokenKind::AnnotationEnd => Ok(Kind::Known(Fixed::LineEnd)),
        TokenKind::End => Ok(Kind::End),
        TokenKind::Quoted | TokenKind::Use => Ok(Kind::Foreign),
    }
}

// The library's names are no identifiers; two of them begin statements.
fn name_kind(alloc: Global, name: &[u8]) -> Result<Kind, AllocError>
    ensures { IfOk result (λ k. k ≡ name_kind name.now) }
{
    if name == b"printint".as_slice() {
        return Ok(Kind::Known(Fixed::PrintInt));
    }
    if name == b"printbool".as_slice() {
        return Ok(Kind::Known(Fixed::PrintBool));
    }
    if is_unbuilt_call(name) {
        return Ok(Kind::Foreign);
    }
    Ok(Kind::Name(Items::from_slice(alloc, name)?))
}

fn is_unbuilt_call(name: &[u8]) -> bool
    ensures { result ≡ is_unbuilt_call name.now }
{
    name == b"print".as_slice()
        || name == b"println".as_slice()
        || name == b"readint".as_slice()
        || name == b"moreint".as_slice()
}

fn keyword_kind(keyword: Keyword) -> Kind
    ensures { result ≡ keyword_kind keyword }
{
    match keyword {
        Keyword::Int => Kind::Known(Fixed::Int),
        Keyword::Bool => Kind::Known(Fixed::Bool),
        Keyword::If => Kind::Known(Fixed::If),
        Keyword::Else => Kind::Known(Fixed::Else),
        Keyword::While => Kind::Known(Fixed::While),
        Keyword::Return => Kind::Known(Fixed::Return),
        Keyword::Assert => Kind::Known(Fixed::Assert),
        Keyword::True => Kind::Known(Fixed::True),
        Keyword::False => Kind::Known(Fixed::False),
        Keyword::Requires => Kind::Known(Fixed::Requires),
        Keyword::Ensures => Kind::Known(Fixed::Ensures),
        Keyword::LoopInvariant => Kind::Known(Fixed::LoopInvariant),
        Keyword::Outcome => Kind::Known(Fixed::Outcome),
        _ => Kind::Foreign,
    }
}

fn symbol_kind(symbol: Symbol) -> Kind
    ensures { result ≡ symbol_kind symbol }
{
    match symbol {
        Symbol::OpenParen => Kind::Known(Fixed::Open),
        Symbol::CloseParen => Kind::Known(Fixed::Close),
        Symbol::Comma => Kind::Known(Fixed::Comma),
        Symbol::OpenBrace => Kind::Known(Fixed::OpenBrace),
        Symbol::CloseBrace => Kind::Known(Fixed::CloseBrace),
        Symbol::Semicolon => Kind::Known(Fixed::Semicolon),
        Symbol::Assign => Kind::Known(Fixed::Assign),
        Symbol::Plus => Kind::Known(Fixed::Plus),
        Symbol::Minus => Kind::Known(Fixed::Minus),
        Symbol::Star => Kind::Known(Fixed::Star),
        Symbol::Not => Kind::Known(Fixed::Not),
        Symbol::Both => Kind::Known(Fixed::And),
        Symbol::Question => Kind::Known(Fixed::Question),
        Symbol::Equal => Kind::Known(Fixed::Equal),
        Symbol::NotEqual => Kind::Known(Fixed::NotEqual),
        Symbol::Less => Kind::Known(Fixed::Less),
        Symbol::LessEq => Kind::Known(Fixed::LessEq),
        Symbol::Greater => Kind::Known(Fixed::Greater),
        Symbol::GreaterEq => Kind::Known(Fixed::GreaterEq),
        _ => Kind::Foreign,
    }
}
