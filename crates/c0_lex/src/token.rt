//! Tokens, and what they are.

ghost use Rattle.std.specs.Prelude.{◌≡◌, ◌↔◌, IsTrue};

use gc0_base::{Place, Word};

/// A word with a meaning of its own.
#[derive(Clone, Copy, Debug, PartialEq, Eq)]
pub enum Keyword {
    Int,
    Bool,
    Void,
    Struct,
    Typedef,
    If,
    Else,
    While,
    For,
    Return,
    Assert,
    Error,
    True,
    False,
    /// `NULL`
    Null,
    Alloc,
    /// Reserved, as are the four below; no rule of the grammar shows them.
    String,
    Char,
    Break,
    Continue,
    /// `alloc_array`
    AllocArray,
    /// A keyword inside annotations alone, as are all below; outside they are names.
    Requires,
    Ensures,
    /// `loop_invariant`
    LoopInvariant,
    Fold,
    Unfold,
    Predicate,
    Acc,
    /// `\result`
    Outcome,
}

impl Keyword {
    /// Whether it is this keyword.
    pub fn is(self, other: Keyword) -> bool
        ensures { IsTrue result ↔ (self ≡ other) }
    {
        self == other
    }
}

/// A symbol of the grammar.
#[derive(Clone, Copy, Debug, PartialEq, Eq)]
pub enum Symbol {
    /// `(`
    OpenParen,
    /// `)`
    CloseParen,
    /// `{`
    OpenBrace,
    /// `}`
    CloseBrace,
    /// `,`
    Comma,
    /// `;`
    Semicolon,
    /// `->`
    Arrow,
    /// `=`
    Assign,
    /// `+=`
    AddAssign,
    /// `-=`
    SubAssign,
    /// `*=`
    MulAssign,
    /// `/=`
    DivAssign,
    /// `%=`
    RemAssign,
    /// `&=`
    AndAssign,
    /// `^=`
    XorAssign,
    /// `|=`
    OrAssign,
    /// `<<=`
    ShlAssign,
    /// `>>=`
    ShrAssign,
    /// `++`
    Increment,
    /// `--`
    Decrement,
    /// `!`
    Not,
    /// `~`
    Tilde,
    /// `-`
    Minus,
    /// `*`
    Star,
    /// `/`
    Slash,
    /// `%`
    Percent,
    /// `+`
    Plus,
    /// `<<`
    ShiftLeft,
    /// `>>`
    ShiftRight,
    /// `<`
    Less,
    /// `<=`
    LessEq,
    /// `>`
    Greater,
    /// `>=`
    GreaterEq,
    /// `==`
    Equal,
    /// `!=`
    NotEqual,
    /// `&`
    And,
    /// `^`
    Xor,
    /// `|`
    Or,
    /// `&&`
    Both,
    /// `||`
    Either,
    /// `?`
    Question,
    /// `:`
    Colon,
}

impl Symbol {
    /// Whether it is this symbol.
    pub fn is(self, other: Symbol) -> bool
        ensures { IsTrue result ↔ (self ≡ other) }
    {
        self == other
    }
}

/// What a token is.
#[derive(Clone, Copy, Debug, PartialEq, Eq)]
pub enum TokenKind {
    Name,
    Keyword(Keyword),
    /// A number, as the word that it stands for.
    Number(Word),
    /// A string, with its quotes. `unescape` gives the bytes that it stands for.
    Quoted,
    Symbol(Symbol),
    /// `#use`
    Use,
    /// `//@` or `/*@`
    AnnotationBegin,
    /// `@*/`, or the end of the line of a `//@`, without bytes.
    AnnotationEnd,
    /// The end of the text, without bytes.
    End,
}

/// A token: its bytes, a slice of the text that it was cut from, and the place of the first.
#[derive(Clone, Copy, Debug)]
pub struct Token<'a> {
    pub text: &'a [u8],
    pub kind: TokenKind,
    pub place: Place,
}

/// Where a text stands: outside annotations, in one that ends with its line, or in one that
/// ends with `@*/`, with the place where it was opened.
#[derive(Clone, Copy, Debug, PartialEq, Eq)]
pub enum Mode {
    Outside,
    InLine,
    InBlock(Place),
}
