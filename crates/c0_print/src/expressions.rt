//! Expressions.

ghost use Rattle.std.specs.Prelude.{◌≡◌, ◌≤◌, ◌+◌, ◌++◌, OnOk};
ghost use Rattle.parsed_tree.specs.Views.{expr_view, exprs_view};
ghost use Rattle.c0_grammar.specs.Written.{before, called, arrow_to, permission};
ghost use Rattle.c0_grammar.specs.Allowed.{height, is_primary};
ghost use Rattle.c0_layout.specs.Layout.{begins_minus, alloc_text, expr_text, args_text, more_text};
ghost use Rattle.c0_print.specs.Printing.{type_of, written, args_of, more_of};
ghost use Rattle.c0_layout.specs.Rounding.{nowhere, is_wide, closed, is_no_primary, based};

use crate::types::push_type;
use c0_layout::{
    is_minus, operator_bytes, push, push_close, push_gap, push_literal, push_open, push_text_call,
    rank_of, truth_bytes, unary_bytes,
};
use parsed_tree::{Expr, TypeName, UnaryOperator};
use sqlite_items::Boxed;
use std::alloc::AllocError;

// 0 for what needs no parentheses behind a unary operator, else one more than its operator's rank.
fn height_of(e: &Expr) -> u32
    ensures { result ≡ height (written (expr_view e.now)) }
{
    match e {
        Expr::Number(_, _) => 0,
        Expr::Truth(_, _) => 0,
        Expr::Null(_) => 0,
        Expr::Local(_, _) => 0,
        Expr::Outcome(_) => 0,
        Expr::Unary(_, _, _) => 0,
        Expr::Binary(_, operator, _, _) => rank_of(*operator) + 1,
        Expr::Choose(_, _, _, _) => 11,
        Expr::Arrow(_, _, _) => 0,
        Expr::Call(_, _, _) => 0,
        Expr::CallText(_, _, _) => 0,
        Expr::Alloc(_, _) => 0,
        Expr::Acc(_, _, _, _) => 0,
    }
}

// Whether it needs parentheses where nothing may stand that binds less than this.
fn is_wide(most: u32, e: &Expr) -> bool
    ensures { result ≡ is_wide most (written (expr_view e.now)) }
{
    height_of(e) > most
}

// Whether it needs parentheses before a `->`.
fn is_no_primary(e: &Expr) -> bool
    ensures { result ≡ is_no_primary (written (expr_view e.now)) }
{
    match e {
        Expr::Number(_, _) => false,
        Expr::Truth(_, _) => false,
        Expr::Null(_) => false,
        Expr::Local(_, _) => false,
        Expr::Outcome(_) => false,
        Expr::Unary(_, _, _) => true,
        Expr::Binary(_, _, _, _) => true,
        Expr::Choose(_, _, _, _) => true,
        Expr::Arrow(_, _, _) => false,
        Expr::Call(_, _, _) => false,
        Expr::CallText(_, _, _) => false,
        Expr::Alloc(_, _) => false,
        Expr::Acc(_, _, _, _) => false,
    }
}

// Whether it begins with a unary `-`, once it has the parentheses that a unary operator asks for.
fn begins_minus(e: &Expr) -> bool
    ensures { result ≡ begins_minus (closed 0 (written (expr_view e.now))) }
{
    match e {
        Expr::Number(_, _) => false,
        Expr::Truth(_, _) => false,
        Expr::Null(_) => false,
        Expr::Local(_, _) => false,
        Expr::Outcome(_) => false,
        Expr::Unary(_, operator, _) => is_minus(*operator),
        Expr::Binary(_, _, _, _) => false,
        Expr::Choose(_, _, _, _) => false,
        Expr::Arrow(_, _, _) => false,
        Expr::Call(_, _, _) => false,
        Expr::CallText(_, _, _) => false,
        Expr::Alloc(_, _) => false,
        Expr::Acc(_, _, _, _) => false,
    }
}

fn push_alloc(text: &mut Vec<u8>, typed: &TypeName) -> Result<(), AllocError>
    ensures { OnOk result (text.new.items ≡ text.old.items ++ alloc_text (type_of typed.now)) }
{
    push(text, b"alloc(")?;
    push_type(text, typed)?;
    push(text, b")")
}

/// An expression.
#[cycle(expression)]
pub(crate) fn push_expr(text: &mut Vec<u8>, e: &Expr) -> Result<(), AllocError>
    ensures { OnOk result (text.new.items ≡ text.old.items ++ expr_text (written (expr_view e.now))) }
{
    match e {
        Expr::Number(_, word) => push_literal(text, *word),
        Expr::Truth(_, truth) => push(text, truth_bytes(*truth)),
        Expr::Null(_) => push(text, b"NULL"),
        Expr::Local(_, name) => push(text, name.as_slice()),
        Expr::Outcome(_) => push(text, b"\\result"),
        Expr::Unary(_, operator, x) => push_unary(text, *operator, x),
        Expr::Binary(_, operator, x, y) => {
            push_closed(text, rank_of(*operator) + 1, x)?;
            push(text, operator_bytes(*operator))?;
            push_closed(text, rank_of(*operator), y)
        }
        Expr::Choose(_, x, y, z) => {
            push_closed(text, 10, x)?;
            push(text, b" ? ")?;
            push_expr(text, y.get())?;
            push(text, b" : ")?;
            push_expr(text, z.get())
        }
        Expr::Arrow(_, x, field) => push_arrow(text, x, field.name.as_slice()),
        Expr::Call(_, name, arguments) => {
            push_call(text, name.as_slice(), arguments.as_slice())
        },
        Expr::CallText(_, name, literal) => {
            push_text_call(text, name.as_slice(), literal.bytes.as_slice())
        },
        Expr::Alloc(_, typed) => push_alloc(text, typed),
        Expr::Acc(_, x, _, field) => push_acc(text, x, field.name.as_slice()),
    }
}

// An operator before its operand.
#[cycle(expression)]
fn push_unary(
    text: &mut Vec<u8>,
    operator: UnaryOperator,
    x: &Boxed<Expr>,
) -> Result<(), AllocError>
    ensures { OnOk result (text.new.items ≡ text.old.items ++ expr_text (before nowhere operator (closed 0 (written (expr_view x.now))))) }
{
    push(text, unary_bytes(operator))?;
    push_gap(text, operator, begins_minus(x.get()))?;
    push_closed(text, 0, x)
}

#[cycle(expression)]
fn push_arrow(text: &mut Vec<u8>, x: &Boxed<Expr>, field: &[u8]) -> Result<(), AllocError>
    ensures { OnOk result (text.new.items ≡ text.old.items ++ expr_text (arrow_to (based (written (expr_view x.now))) nowhere nowhere field.now)) }
{
    push_based(text, x)?;
    push(text, b"->")?;
    push(text, field)
}

#[cycle(expression)]
fn push_call(text: &mut Vec<u8>, name: &[u8], arguments: &[Expr]) -> Result<(), AllocError>
    ensures { OnOk result (text.new.items ≡ text.old.items ++ expr_text (called nowhere name.now nowhere (args_of (exprs_view arguments.now)) nowhere)) }
{
    push(text, name)?;
    push(text, b"(")?;
    push_args(text, arguments)?;
    push(text, b")")
}

#[cycle(expression)]
fn push_acc(text: &mut Vec<u8>, x: &Boxed<Expr>, field: &[u8]) -> Result<(), AllocError>
    ensures { OnOk result (text.new.items ≡ text.old.items ++ expr_text (permission nowhere nowhere (written (expr_view x.now)) nowhere nowhere field.now nowhere)) }
{
    push(text, b"acc(")?;
    push_expr(text, x.get())?;
    push(text, b"->")?;
    push(text, field)?;
    push(text, b")")
}

// In parentheses where it binds less than may stand there.
#[tactic(auto, using(c0_layout::specs::Rounding::rounded_text))]
#[cycle(expression)]
fn push_closed(text: &mut Vec<u8>, most: u32, part: &Boxed<Expr>) -> Result<(), AllocError>
    ensures { OnOk result (text.new.items ≡ text.old.items ++ expr_text (closed most (written (expr_view part.now)))) }
{
    let wide = is_wide(most, part.get());
    push_open(text, wide)?;
    push_expr(text, part.get())?;
    push_close(text, wide)
}

// In parentheses where it may not stand before a `->`.
#[tactic(auto, using(c0_layout::specs::Rounding::rounded_text))]
#[cycle(expression)]
fn push_based(text: &mut Vec<u8>, part: &Boxed<Expr>) -> Result<(), AllocError>
    ensures { OnOk result (text.new.items ≡ text.old.items ++ expr_text (based (written (expr_view part.now)))) }
{
    let rounded = is_no_primary(part.get());
    push_open(text, rounded)?;
    push_expr(text, part.get())?;
    push_close(text, rounded)
}

/// Arguments, joined by `, `.
#[tactic(auto, using(c0_layout::specs::Behind::behind_comma, crate::proofs::Behind::args_behind))]
#[cycle(expression)]
pub(crate) fn push_args(text: &mut Vec<u8>, arguments: &[Expr]) -> Result<(), AllocError>
    ensures { OnOk result (text.new.items ≡ text.old.items ++ args_text (args_of (exprs_view arguments.now))) }
{
    let mut front: &[u8] = b"";
    for e in arguments {
        push(text, front)?;
        push_expr(text, e)?;
        front = b", ";
    }
    Ok(())
}
