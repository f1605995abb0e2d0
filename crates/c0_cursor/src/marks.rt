//! Tokens that are always the same, and whether one stands here.

ghost use Rattle.std.specs.Prelude.{◌≡◌, List, ℕ};
ghost use Rattle.c0_grammar.specs.Tokens.{word_mark, sign_mark};
ghost use Rattle.c0_grammar.specs.Plan.{is, keyword_code, symbol_code};
ghost use Rattle.c0_grammar.specs.Seen.{what_of};
ghost use Rattle.c0_cursor.specs.Seen.{mark_view};

use c0_lex::{Keyword, Symbol, TokenKind};

/// A token that is always the same.
#[derive(Clone, Copy, Debug, PartialEq, Eq)]
pub enum Mark {
    Word(Keyword),
    Sign(Symbol),
    /// What names a library.
    Use,
    /// What opens an annotation.
    Open,
    /// What closes an annotation.
    Close,
    /// The end of the text.
    End,
}

impl Mark {
    /// Whether a token of this kind is this one.
    pub fn is(self, kind: TokenKind) -> bool
        ensures { (bytes : List ℕ) → result ≡ is (mark_view self) (what_of kind bytes) }
    {
        match self {
            Mark::Word(keyword) => is_keyword(keyword, kind),
            Mark::Sign(symbol) => is_symbol(symbol, kind),
            Mark::Use => matches!(kind, TokenKind::Use),
            Mark::Open => matches!(kind, TokenKind::AnnotationBegin),
            Mark::Close => matches!(kind, TokenKind::AnnotationEnd),
            Mark::End => matches!(kind, TokenKind::End),
        }
    }
}

fn keyword_code(keyword: Keyword) -> u8
    ensures { result ≡ keyword_code keyword }
{
    keyword as u8
}

fn symbol_code(symbol: Symbol) -> u8
    ensures { result ≡ symbol_code symbol }
{
    symbol as u8
}

// Whether a token is this symbol.
fn is_symbol(symbol: Symbol, kind: TokenKind) -> bool
    ensures { (bytes : List ℕ) → result ≡ is (sign_mark symbol) (what_of kind bytes) }
{
    match kind {
        TokenKind::Symbol(found) => symbol_code(symbol) == symbol_code(found),
        _ => false,
    }
}

// Whether a token is this keyword.
fn is_keyword(keyword: Keyword, kind: TokenKind) -> bool
    ensures { (bytes : List ℕ) → result ≡ is (word_mark keyword) (what_of kind bytes) }
{
    match kind {
        TokenKind::Keyword(found) => keyword_code(keyword) == keyword_code(found),
        _ => false,
    }
}
