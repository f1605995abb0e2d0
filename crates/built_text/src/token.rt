//! Tokens of the grammar of what is built.

use gc0_base::{Place, Word};
use sqlite_items::Items;

/// A keyword or a symbol that the grammar shows, or what opens or closes an annotation.
#[derive(Clone, Copy, Debug, PartialEq, Eq)]
pub enum Fixed {
    Int,
    Bool,
    If,
    Else,
    While,
    Return,
    Assert,
    True,
    False,
    PrintInt,
    PrintBool,
    Requires,
    Ensures,
    LoopInvariant,
    /// `\result`
    Outcome,
    Open,
    Close,
    Comma,
    OpenBrace,
    CloseBrace,
    Semicolon,
    Assign,
    Plus,
    Minus,
    Star,
    Not,
    And,
    Question,
    Equal,
    NotEqual,
    Less,
    LessEq,
    Greater,
    GreaterEq,
    /// What opens an annotation.
    Annotation,
    /// What closes an annotation, as the end of its line.
    LineEnd,
}

/// What a token is.
#[derive(Debug, Drop)]
pub enum Kind {
    Known(Fixed),
    Name(Items<u8>),
    Number(Word),
    /// What the grammar shows nowhere: another keyword or symbol, a library call that is no
    /// statement, a string, or `#use`.
    Foreign,
    /// The end of the text.
    End,
}

/// A token, and the place of its first byte.
#[derive(Debug, Drop)]
pub struct Token {
    pub kind: Kind,
    pub place: Place,
}
