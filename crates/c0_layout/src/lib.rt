//! The layout in which programs of C0, and formulas over numbers, are printed (C0 Reference; the
//! formulas of Gradual C0): its definitions, and what writes its words at the end of a text.
//!
//! Operators between two operands, `?` and `:` have one space on both sides, arguments are joined
//! by `, `, and one space stands between two unary `-`. Parentheses stand where precedence needs
//! them. Items, heads, annotations, braces, statements, `if (..)`, `else`, `while (..)` and
//! `for (..)` have a line each, without indentation.
#![tactic(auto)]

mod operators;
mod rounds;
mod words;

pub use operators::{
    is_minus, operator_bytes, push_gap, rank_of, step_bytes, unary_bytes, update_bytes,
};
pub use rounds::{push_close, push_open, push_text_call};
pub use words::{push, push_literal, push_string, truth_bytes};
