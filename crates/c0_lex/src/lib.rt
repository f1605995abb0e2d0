//! Cuts the text of a C0 program with its annotations into tokens, or names its first lexical
//! fault (C0 Reference, "Lexical structure").
#![tactic(auto)]

mod bytes;
mod comments;
mod fault;
mod front;
mod laws;
mod lexer;
mod strings;
mod symbols;
mod token;
mod words;

pub use fault::LexFault;
pub use laws::{each_text, first_shown, never_both, one_fault, one_list, quoted_means, slices};
pub use lexer::tokens;
pub use strings::unescape;
pub use token::{Keyword, Symbol, Token, TokenKind};
