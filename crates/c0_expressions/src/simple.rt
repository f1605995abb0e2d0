//! Simple statements: declarations, assignments, steps by one, and expressions alone.
#![tactic(auto, using(c0_cursor::specs::Laws::fails_as))]

ghost use Rattle.std.specs.Prelude.{◌≡◌, ◌≤◌, ◌<◌, ◌+◌, ◌&&◌, ℕ, Option, None, Some, true, false, length, IfOk};
ghost use Rattle.std.specs.Option.{option_map};
ghost use Rattle.parsed_tree.specs.Tree.{ExprTree, SimpleTree, declare, assign, stepped, plain};
ghost use Rattle.parsed_tree.specs.Views.{expr_view, simple_view};
ghost use Rattle.c0_grammar.specs.Grammar.{is_place};
ghost use Rattle.c0_grammar.specs.Plan.{Plan, declared, simple, simple_end, optional_simple};
ghost use Rattle.c0_cursor.specs.Seen.{reading, starts_type, FailsAs, Parsed};
ghost use Rattle.c0_expressions.specs.Seen.{starts_operand};
ghost use Rattle.c0_expressions.specs.Read.{IsFound};

use crate::built::{Found, deeper};
use crate::expressions::expression;
use crate::part;
use c0_cursor::{
    Mark, Mode, NOWHERE, Names, Stop, begins, begins_type, expect, free_name, step_at, type_name,
    update_at,
};
use c0_lex::{Keyword, Symbol, Token, TokenKind};
use gc0_base::{Limits, Place};
use parsed_tree::{Expr, Named, Simple, StepOperator, TypeName, UpdateOperator};
use sqlite_items::Boxed;
use std::alloc::{AllocError, Global};

// Whether the expression may stand before an assignment.
fn is_place(expr: &Expr) -> bool
    ensures { result ≡ is_place (expr_view expr.now) }
{
    match expr {
        Expr::Local(_, _) => true,
        Expr::Arrow(_, _, _) => true,
        _ => false,
    }
}

// A declaration's name and value, behind its type.
fn declared<'t, 'a>(
    alloc: Global,
    names: &Names<'a>,
    up: u32,
    typed: TypeName,
    tokens: &'t [Token<'a>],
) -> Result<(Boxed<Simple>, u32, &'t [Token<'a>]), Stop>
    requires { up ≤ Limits.NESTING }
    ensures reads { (next : SimpleTree → ℕ → Plan) → Parsed (λ x. reading (next (simple_view x.0) x.1) x.2.now) (reading (declared names.now up next typed) tokens.now) result }
    ensures room { IfOk result (λ x. up + x.1 ≤ Limits.NESTING) }
    ensures shorter { IfOk result (λ x. length x.2.now < length tokens.now) }
{
    let (name, rest) = part!(free_name(alloc, names, tokens));
    if !begins(Mark::Sign(Symbol::Assign), rest) {
        return Ok((bare(alloc, typed, name)?, 0, rest));
    }
    let (place, rest) = part!(expect(Mark::Sign(Symbol::Assign), rest));
    let (e, rest) = part!(expression(alloc, names, Mode::Code, up, rest));
    let depth = e.depth;
    Ok((valued(alloc, typed, name, place, e.expr)?, depth, rest))
}

fn bare(alloc: Global, typed: TypeName, name: Named) -> Result<Boxed<Simple>, AllocError>
    ensures { IfOk result (λ x. simple_view x ≡ declare typed name None) }
{
    Boxed::new(
        alloc,
        Simple::Declare {
            typed,
            name,
            value: None,
        },
    )
}

fn valued(
    alloc: Global,
    typed: TypeName,
    name: Named,
    place: Place,
    value: Boxed<Expr>,
) -> Result<Boxed<Simple>, AllocError>
    ensures { IfOk result (λ x. simple_view x ≡ declare typed name (Some (place, expr_view value))) }
{
    Boxed::new(
        alloc,
        Simple::Declare {
            typed,
            name,
            value: Some((place, value.into_inner())),
        },
    )
}

fn assigned(
    alloc: Global,
    target: Boxed<Expr>,
    place: Place,
    operator: Option<UpdateOperator>,
    value: Boxed<Expr>,
) -> Result<Boxed<Simple>, AllocError>
    ensures { IfOk result (λ x. simple_view x ≡ assign (expr_view target) place operator (expr_view value)) }
{
    Boxed::new(
        alloc,
        Simple::Assign {
            target: target.into_inner(),
            place,
            operator,
            value: value.into_inner(),
        },
    )
}

fn by_one(
    alloc: Global,
    target: Boxed<Expr>,
    place: Place,
    operator: StepOperator,
) -> Result<Boxed<Simple>, AllocError>
    ensures { IfOk result (λ x. simple_view x ≡ stepped (expr_view target) place operator) }
{
    Boxed::new(
        alloc,
        Simple::Step {
            target: target.into_inner(),
            place,
            operator,
        },
    )
}

fn alone(alloc: Global, expr: Boxed<Expr>) -> Result<Boxed<Simple>, AllocError>
    ensures { IfOk result (λ x. simple_view x ≡ plain (expr_view expr)) }
{
    Boxed::new(alloc, Simple::Plain(expr.into_inner()))
}

// What follows the expression with which a simple statement begins.
fn end_of_simple<'t, 'a>(
    alloc: Global,
    names: &Names<'a>,
    up: u32,
    e: Found,
    tokens: &'t [Token<'a>],
) -> Result<(Boxed<Simple>, u32, &'t [Token<'a>]), Stop>
    requires up { up ≤ Limits.NESTING }
    requires found { IsFound up e }
    ensures reads { (next : SimpleTree → ℕ → Plan) → Parsed (λ x. reading (next (simple_view x.0) x.1) x.2.now) (reading (simple_end names.now up (expr_view e.expr) e.depth next) tokens.now) result }
    ensures room { IfOk result (λ x. up + x.1 ≤ Limits.NESTING) }
    ensures shorter { IfOk result (λ x. length x.2.now ≤ length tokens.now) }
{
    let depth = e.depth;
    let Some((token, rest)) = tokens.split_first() else {
        return Ok((alone(alloc, e.expr)?, depth, tokens));
    };
    if !is_place(e.expr.get()) {
        return Ok((alone(alloc, e.expr)?, depth, tokens));
    }
    if let Some(operator) = update_at(token.kind) {
        let (value, rest) = part!(expression(alloc, names, Mode::Code, up, rest));
        let depth = deeper(depth, value.depth);
        return Ok((
            assigned(alloc, e.expr, token.place, operator, value.expr)?,
            depth,
            rest,
        ));
    }
    if let Some(operator) = step_at(token.kind) {
        return Ok((by_one(alloc, e.expr, token.place, operator)?, depth, rest));
    }
    Ok((alone(alloc, e.expr)?, depth, tokens))
}

// Whether a declaration stands first, where one may.
fn begins_declaration<'t, 'a>(names: &Names<'a>, declares: bool, tokens: &'t [Token<'a>]) -> bool
    ensures { result ≡ (declares && starts_type names.now tokens.now) }
{
    declares && begins_type(names, tokens)
}

/// A simple statement without its `;`, which may be a declaration where `declares` is true.
pub fn simple_of<'t, 'a>(
    alloc: Global,
    names: &Names<'a>,
    declares: bool,
    up: u32,
    tokens: &'t [Token<'a>],
) -> Result<(Boxed<Simple>, u32, &'t [Token<'a>]), Stop>
    requires { up ≤ Limits.NESTING }
    ensures reads { (next : SimpleTree → ℕ → Plan) → Parsed (λ x. reading (next (simple_view x.0) x.1) x.2.now) (reading (simple names.now declares up next) tokens.now) result }
    ensures room { IfOk result (λ x. up + x.1 ≤ Limits.NESTING) }
    ensures shorter { IfOk result (λ x. length x.2.now < length tokens.now) }
{
    if begins_declaration(names, declares, tokens) {
        let (typed, rest) = part!(type_name(alloc, names, tokens));
        return declared(alloc, names, up, typed, rest);
    }
    let (e, rest) = part!(expression(alloc, names, Mode::Code, up, tokens));
    end_of_simple(alloc, names, up, e, rest)
}

/// A simple statement, if this symbol does not stand first, and the symbol.
pub fn optional_simple<'t, 'a>(
    alloc: Global,
    names: &Names<'a>,
    declares: bool,
    up: u32,
    symbol: Symbol,
    tokens: &'t [Token<'a>],
) -> Result<(Option<Boxed<Simple>>, u32, &'t [Token<'a>]), Stop>
    requires { up ≤ Limits.NESTING }
    ensures reads { (next : Option SimpleTree → ℕ → Plan) → Parsed (λ x. reading (next (option_map simple_view x.0) x.1) x.2.now) (reading (optional_simple names.now declares up symbol next) tokens.now) result }
    ensures room { IfOk result (λ x. up + x.1 ≤ Limits.NESTING) }
    ensures shorter { IfOk result (λ x. length x.2.now < length tokens.now) }
{
    if begins(Mark::Sign(symbol), tokens) {
        let (_, rest) = part!(expect(Mark::Sign(symbol), tokens));
        return Ok((None, 0, rest));
    }
    let (simple, depth, rest) = part!(simple_of(alloc, names, declares, up, tokens));
    let (_, rest) = part!(expect(Mark::Sign(symbol), rest));
    Ok((Some(simple), depth, rest))
}

/// The fault at the first token where each simple statement is too deep.
pub fn first_of_simple<'t, 'a>(names: &Names<'a>, declares: bool, tokens: &'t [Token<'a>]) -> Stop
    ensures { (next : SimpleTree → ℕ → Plan) → FailsAs (reading (simple names.now declares (Limits.NESTING + 1) next) tokens.now) result }
{
    let Some((token, behind)) = tokens.split_first() else {
        return Stop::Syntax(NOWHERE);
    };
    if begins_declaration(names, declares, tokens) {
        return Stop::TooDeep(token.place);
    }
    if begins_operand(names, tokens) {
        return Stop::TooDeep(token.place);
    }
    Stop::Syntax(token.place)
}

// Whether an expression of the code may begin so.
fn begins_operand<'t, 'a>(names: &Names<'a>, tokens: &'t [Token<'a>]) -> bool
    ensures { result ≡ starts_operand names.now tokens.now }
{
    let Some((token, _)) = tokens.split_first() else {
        return false;
    };
    match token.kind {
        TokenKind::Number(_) => true,
        TokenKind::Name => !names.contains(token.text),
        TokenKind::Keyword(Keyword::True | Keyword::False | Keyword::Null | Keyword::Alloc) => true,
        TokenKind::Symbol(Symbol::Minus | Symbol::Tilde | Symbol::Not | Symbol::OpenParen) => true,
        _ => false,
    }
}
