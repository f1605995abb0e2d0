//! Statements, and lists of them.
#![tactic(auto, using(c0_cursor::specs::Laws::fails_as))]

ghost use Rattle.std.specs.Prelude.{◌≡◌, ◌≤◌, ◌<◌, ◌+◌, ℕ, List, Option, None, Some, map, length, IfOk};
ghost use Rattle.std.specs.Option.{option_map};
ghost use Rattle.gc0_base.specs.declared.place.Place.{Place};
ghost use Rattle.parsed_tree.specs.Tree.{ExprTree, SimpleTree, InvariantsTree, StmtTree, StmtTrees, no_stmts, stmt_and, simple_stmt, block_stmt, if_stmt, while_stmt, for_stmt, return_stmt, assert_stmt, error_stmt};
ghost use Rattle.parsed_tree.specs.Views.{expr_view, simple_view, invariants_view, stmt_view, stmts_view};
ghost use Rattle.c0_grammar.specs.Plan.{Plan, node, condition, simple, body, loop_body, lines, block_plan, if_plan, while_plan, for_plan, return_plan, assert_stmt_plan, error_plan, simple_line};
ghost use Rattle.c0_cursor.specs.Seen.{reading, stepping, Parsed};
ghost use Rattle.c0_expressions.specs.Seen.{starts_operand};
ghost use Rattle.c0_parse.specs.Seen.{line_reading};

use crate::loops::{Inner, all_invariants};
use crate::made::{
    assertion, block, error_stop, for_loop, return_none, return_value, simple_statement, when,
    when_else, while_loop,
};
use crate::part;
use c0_cursor::{Mark, Mode, NOWHERE, Names, Stop, begins, expect, remaining, string};
use c0_expressions::{deeper, expression, first_of_simple, notes_of, optional_simple, simple_of};
use c0_lex::{Keyword, Symbol, Token, TokenKind};
use gc0_base::{Limits, Place};
use parsed_tree::{Expr, Stmt};
use sqlite_items::{Boxed, Items};
use std::alloc::Global;

/// The statements of a block, above which `up` nodes stand, and the place of the closing brace.
#[cycle(statement)]
pub fn lines_of<'t, 'a>(
    alloc: Global,
    names: &Names<'a>,
    up: u32,
    tokens: &'t [Token<'a>],
) -> Result<(Items<Stmt>, u32, Place, &'t [Token<'a>]), Stop>
    requires { up ≤ Limits.NESTING }
    ensures reads { (next : StmtTrees → ℕ → Place → Plan) → Parsed (λ x. reading (next (stmts_view x.0) x.1 x.2) x.3.now) (reading (lines names.now up next) tokens.now) result }
    ensures room { IfOk result (λ x. up + x.1 ≤ Limits.NESTING) }
    ensures shorter { IfOk result (λ x. length x.3.now < length tokens.now) }
{
    let mut found = Items::new(alloc);
    let mut deepest = 0;
    let mut rest = tokens;
    'lines: while !begins(Mark::Sign(Symbol::CloseBrace), rest) {
        let (stmt, depth, after) = part!(statement(alloc, names, true, up, rest));
        deepest = deeper(deepest, depth);
        found.push(stmt)?;
        rest = remaining(after);
    }
    let (close, rest) = part!(expect(Mark::Sign(Symbol::CloseBrace), rest));
    Ok((found, deepest, close, rest))
}

// A statement, which may be a declaration and an empty annotation where `whole` is true.
#[cycle(statement)]
fn statement<'t, 'a>(
    alloc: Global,
    names: &Names<'a>,
    whole: bool,
    up: u32,
    tokens: &'t [Token<'a>],
) -> Result<(Stmt, u32, &'t [Token<'a>]), Stop>
    requires { up ≤ Limits.NESTING }
    ensures reads { (next : StmtTree → ℕ → Plan) → Parsed (λ x. reading (next (stmt_view x.0) x.1) x.2.now) (line_reading names.now whole up next tokens.now) result }
    ensures room { IfOk result (λ x. up + x.1 ≤ Limits.NESTING) }
    ensures shorter { IfOk result (λ x. length x.2.now < length tokens.now) }
{
    let Some((token, rest)) = tokens.split_first() else {
        return Err(Stop::Syntax(NOWHERE));
    };
    let place = token.place;
    match token.kind {
        TokenKind::Keyword(Keyword::If) => if_behind(alloc, names, up, place, rest),
        TokenKind::Keyword(Keyword::While) => while_behind(alloc, names, up, place, rest),
        TokenKind::Keyword(Keyword::For) => for_behind(alloc, names, up, place, rest),
        TokenKind::Keyword(Keyword::Return) => return_behind(alloc, names, up, place, rest),
        TokenKind::Keyword(Keyword::Assert) => assert_behind(alloc, names, up, place, rest),
        TokenKind::Keyword(Keyword::Error) => error_behind(alloc, up, place, rest),
        TokenKind::Symbol(Symbol::OpenBrace) => block_behind(alloc, names, up, place, rest),
        TokenKind::AnnotationBegin => notes_of(alloc, names, whole, up, place, rest),
        _ => simple_behind(alloc, names, whole, up, tokens),
    }
}

// The body of `if` or of `else`.
#[cycle(statement)]
fn body_of<'t, 'a>(
    alloc: Global,
    names: &Names<'a>,
    up: u32,
    tokens: &'t [Token<'a>],
) -> Result<(Boxed<Stmt>, u32, &'t [Token<'a>]), Stop>
    requires { up ≤ Limits.NESTING }
    ensures reads { (next : StmtTree → ℕ → Plan) → Parsed (λ x. reading (next (stmt_view x.0) x.1) x.2.now) (reading (body names.now up next) tokens.now) result }
    ensures room { IfOk result (λ x. up + x.1 ≤ Limits.NESTING) }
    ensures shorter { IfOk result (λ x. length x.2.now < length tokens.now) }
{
    let (stmt, depth, rest) = part!(statement(alloc, names, false, up, tokens));
    Ok((Boxed::new(alloc, stmt)?, depth, rest))
}

// What stands behind a brace at this place.
#[cycle(statement)]
fn block_behind<'t, 'a>(
    alloc: Global,
    names: &Names<'a>,
    up: u32,
    place: Place,
    tokens: &'t [Token<'a>],
) -> Result<(Stmt, u32, &'t [Token<'a>]), Stop>
    requires { up ≤ Limits.NESTING }
    ensures reads { (next : StmtTree → ℕ → Plan) → Parsed (λ x. reading (next (stmt_view x.0) x.1) x.2.now) (stepping (node (up + 1) (block_plan names.now up next place)) place tokens.now) result }
    ensures room { IfOk result (λ x. up + x.1 ≤ Limits.NESTING) }
    ensures shorter { IfOk result (λ x. length x.2.now < length tokens.now) }
{
    if up >= Limits::NESTING {
        return Err(Stop::TooDeep(place));
    }
    let (body, depth, _, rest) = part!(lines_of(alloc, names, up + 1, tokens));
    Ok((block(place, body), depth + 1, rest))
}

// What stands behind the word `if` at this place.
#[cycle(statement)]
fn if_behind<'t, 'a>(
    alloc: Global,
    names: &Names<'a>,
    up: u32,
    place: Place,
    tokens: &'t [Token<'a>],
) -> Result<(Stmt, u32, &'t [Token<'a>]), Stop>
    requires { up ≤ Limits.NESTING }
    ensures reads { (next : StmtTree → ℕ → Plan) → Parsed (λ x. reading (next (stmt_view x.0) x.1) x.2.now) (stepping (node (up + 2) (if_plan names.now up next place)) place tokens.now) result }
    ensures room { IfOk result (λ x. up + x.1 ≤ Limits.NESTING) }
    ensures shorter { IfOk result (λ x. length x.2.now < length tokens.now) }
{
    if up + 2 > Limits::NESTING {
        return Err(Stop::TooDeep(place));
    }
    let (test, test_depth, rest) = part!(condition_of(alloc, names, up + 1, tokens));
    let (yes, yes_depth, rest) = part!(body_of(alloc, names, up + 1, rest));
    if !begins(Mark::Word(Keyword::Else), rest) {
        let depth = deeper(test_depth, yes_depth);
        return Ok((when(place, test, yes), depth + 1, rest));
    }
    let (_, rest) = part!(expect(Mark::Word(Keyword::Else), rest));
    let (no, no_depth, rest) = part!(body_of(alloc, names, up + 1, rest));
    let below = deeper(yes_depth, no_depth);
    let depth = deeper(test_depth, below);
    Ok((when_else(place, test, yes, no), depth + 1, rest))
}

// What stands behind the word `while` at this place.
#[cycle(statement)]
fn while_behind<'t, 'a>(
    alloc: Global,
    names: &Names<'a>,
    up: u32,
    place: Place,
    tokens: &'t [Token<'a>],
) -> Result<(Stmt, u32, &'t [Token<'a>]), Stop>
    requires { up ≤ Limits.NESTING }
    ensures reads { (next : StmtTree → ℕ → Plan) → Parsed (λ x. reading (next (stmt_view x.0) x.1) x.2.now) (stepping (node (up + 2) (while_plan names.now up next place)) place tokens.now) result }
    ensures room { IfOk result (λ x. up + x.1 ≤ Limits.NESTING) }
    ensures shorter { IfOk result (λ x. length x.2.now < length tokens.now) }
{
    if up + 2 > Limits::NESTING {
        return Err(Stop::TooDeep(place));
    }
    let (test, test_depth, rest) = part!(condition_of(alloc, names, up + 1, tokens));
    let (inner, rest) = part!(loop_of(alloc, names, up + 1, rest));
    let below = deeper(inner.above, inner.below);
    let depth = deeper(test_depth, below);
    Ok((while_loop(place, test, inner), depth + 1, rest))
}

// What stands behind the word `for` at this place.
#[cycle(statement)]
fn for_behind<'t, 'a>(
    alloc: Global,
    names: &Names<'a>,
    up: u32,
    place: Place,
    tokens: &'t [Token<'a>],
) -> Result<(Stmt, u32, &'t [Token<'a>]), Stop>
    requires { up ≤ Limits.NESTING }
    ensures reads { (next : StmtTree → ℕ → Plan) → Parsed (λ x. reading (next (stmt_view x.0) x.1) x.2.now) (stepping (node (up + 2) (for_plan names.now up next place)) place tokens.now) result }
    ensures room { IfOk result (λ x. up + x.1 ≤ Limits.NESTING) }
    ensures shorter { IfOk result (λ x. length x.2.now < length tokens.now) }
{
    if up + 2 > Limits::NESTING {
        return Err(Stop::TooDeep(place));
    }
    let (_, rest) = part!(expect(Mark::Sign(Symbol::OpenParen), tokens));
    let (first, first_depth, rest) = part!(optional_simple(
        alloc,
        names,
        true,
        up + 1,
        Symbol::Semicolon,
        rest
    ));
    let (test, rest) = part!(expression(alloc, names, Mode::Code, up + 1, rest));
    let (_, rest) = part!(expect(Mark::Sign(Symbol::Semicolon), rest));
    let (last, last_depth, rest) = part!(optional_simple(
        alloc,
        names,
        false,
        up + 1,
        Symbol::CloseParen,
        rest
    ));
    let (inner, rest) = part!(loop_of(alloc, names, up + 1, rest));
    let below = deeper(inner.above, inner.below);
    let last_on = deeper(last_depth, below);
    let test_on = deeper(test.depth, last_on);
    let depth = deeper(first_depth, test_on);
    Ok((
        for_loop(place, first, test.expr, last, inner),
        depth + 1,
        rest,
    ))
}

// What stands behind the head of a loop: its invariants, and its body.
#[cycle(statement)]
fn loop_of<'t, 'a>(
    alloc: Global,
    names: &Names<'a>,
    up: u32,
    tokens: &'t [Token<'a>],
) -> Result<(Inner, &'t [Token<'a>]), Stop>
    requires { up ≤ Limits.NESTING }
    ensures reads { (next : List InvariantsTree → ℕ → StmtTree → ℕ → Plan) → Parsed (λ x. reading (next (map invariants_view x.0.invariants) x.0.above (stmt_view x.0.body) x.0.below) x.1.now) (reading (loop_body names.now up next) tokens.now) result }
    ensures room { IfOk result (λ x. up + x.0.above ≤ Limits.NESTING) }
    ensures room_below { IfOk result (λ x. up + x.0.below ≤ Limits.NESTING) }
    ensures shorter { IfOk result (λ x. length x.1.now < length tokens.now) }
{
    let (invariants, above, rest) = part!(all_invariants(alloc, names, up, tokens));
    let (body, below, rest) = part!(body_of(alloc, names, up, rest));
    Ok((
        Inner {
            invariants,
            above,
            body,
            below,
        },
        rest,
    ))
}

// A condition in parentheses.
fn condition_of<'t, 'a>(
    alloc: Global,
    names: &Names<'a>,
    up: u32,
    tokens: &'t [Token<'a>],
) -> Result<(Boxed<Expr>, u32, &'t [Token<'a>]), Stop>
    requires { up ≤ Limits.NESTING }
    ensures reads { (next : ExprTree → ℕ → Plan) → Parsed (λ x. reading (next (expr_view x.0) x.1) x.2.now) (reading (condition names.now up next) tokens.now) result }
    ensures room { IfOk result (λ x. up + x.1 ≤ Limits.NESTING) }
    ensures shorter { IfOk result (λ x. length x.2.now < length tokens.now) }
{
    let (_, rest) = part!(expect(Mark::Sign(Symbol::OpenParen), tokens));
    let (e, rest) = part!(expression(alloc, names, Mode::Code, up, rest));
    let (_, rest) = part!(expect(Mark::Sign(Symbol::CloseParen), rest));
    let depth = e.depth;
    Ok((e.expr, depth, rest))
}

// What stands behind the word `return` at this place.
fn return_behind<'t, 'a>(
    alloc: Global,
    names: &Names<'a>,
    up: u32,
    place: Place,
    tokens: &'t [Token<'a>],
) -> Result<(Stmt, u32, &'t [Token<'a>]), Stop>
    requires { up ≤ Limits.NESTING }
    ensures reads { (next : StmtTree → ℕ → Plan) → Parsed (λ x. reading (next (stmt_view x.0) x.1) x.2.now) (stepping (node (up + 1) (return_plan names.now up next place)) place tokens.now) result }
    ensures room { IfOk result (λ x. up + x.1 ≤ Limits.NESTING) }
    ensures shorter { IfOk result (λ x. length x.2.now < length tokens.now) }
{
    if up >= Limits::NESTING {
        return Err(Stop::TooDeep(place));
    }
    if begins(Mark::Sign(Symbol::Semicolon), tokens) {
        let (_, rest) = part!(expect(Mark::Sign(Symbol::Semicolon), tokens));
        return Ok((return_none(place), 1, rest));
    }
    let (e, rest) = part!(expression(alloc, names, Mode::Code, up + 1, tokens));
    let (_, rest) = part!(expect(Mark::Sign(Symbol::Semicolon), rest));
    let depth = e.depth;
    Ok((return_value(place, e.expr), depth + 1, rest))
}

// What stands behind the word `assert` of the code at this place.
fn assert_behind<'t, 'a>(
    alloc: Global,
    names: &Names<'a>,
    up: u32,
    place: Place,
    tokens: &'t [Token<'a>],
) -> Result<(Stmt, u32, &'t [Token<'a>]), Stop>
    requires { up ≤ Limits.NESTING }
    ensures reads { (next : StmtTree → ℕ → Plan) → Parsed (λ x. reading (next (stmt_view x.0) x.1) x.2.now) (stepping (node (up + 1) (assert_stmt_plan names.now up next place)) place tokens.now) result }
    ensures room { IfOk result (λ x. up + x.1 ≤ Limits.NESTING) }
    ensures shorter { IfOk result (λ x. length x.2.now < length tokens.now) }
{
    if up >= Limits::NESTING {
        return Err(Stop::TooDeep(place));
    }
    let (test, depth, rest) = part!(condition_of(alloc, names, up + 1, tokens));
    let (_, rest) = part!(expect(Mark::Sign(Symbol::Semicolon), rest));
    Ok((assertion(place, test), depth + 1, rest))
}

// What stands behind the word `error` at this place.
fn error_behind<'t, 'a>(
    alloc: Global,
    up: u32,
    place: Place,
    tokens: &'t [Token<'a>],
) -> Result<(Stmt, u32, &'t [Token<'a>]), Stop>
    requires { up ≤ Limits.NESTING }
    ensures reads { (next : StmtTree → ℕ → Plan) → Parsed (λ x. reading (next (stmt_view x.0) x.1) x.2.now) (stepping (node (up + 1) (error_plan next place)) place tokens.now) result }
    ensures room { IfOk result (λ x. up + x.1 ≤ Limits.NESTING) }
    ensures shorter { IfOk result (λ x. length x.2.now < length tokens.now) }
{
    if up >= Limits::NESTING {
        return Err(Stop::TooDeep(place));
    }
    let (_, rest) = part!(expect(Mark::Sign(Symbol::OpenParen), tokens));
    let (text, rest) = part!(string(alloc, rest));
    let (_, rest) = part!(expect(Mark::Sign(Symbol::CloseParen), rest));
    let (_, rest) = part!(expect(Mark::Sign(Symbol::Semicolon), rest));
    Ok((error_stop(place, text), 1, rest))
}

// A simple statement and the `;` behind it, which may be a declaration where `declares` is true.
// Where no node may stand below, the first token of any such statement goes too deep.
fn simple_behind<'t, 'a>(
    alloc: Global,
    names: &Names<'a>,
    declares: bool,
    up: u32,
    tokens: &'t [Token<'a>],
) -> Result<(Stmt, u32, &'t [Token<'a>]), Stop>
    requires { up ≤ Limits.NESTING }
    ensures reads { (next : StmtTree → ℕ → Plan) → Parsed (λ x. reading (next (stmt_view x.0) x.1) x.2.now) (reading (simple names.now declares (up + 1) (simple_line next)) tokens.now) result }
    ensures room { IfOk result (λ x. up + x.1 ≤ Limits.NESTING) }
    ensures shorter { IfOk result (λ x. length x.2.now < length tokens.now) }
{
    if up >= Limits::NESTING {
        return Err(first_of_simple(names, declares, tokens));
    }
    let (simple, depth, rest) = part!(simple_of(alloc, names, declares, up + 1, tokens));
    let (_, rest) = part!(expect(Mark::Sign(Symbol::Semicolon), rest));
    Ok((simple_statement(simple), depth + 1, rest))
}
