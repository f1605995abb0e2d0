//! Expressions, of the code and of formulas.
#![tactic(auto, using(c0_cursor::specs::Laws::fails_as))]

ghost use Rattle.std.specs.Prelude.{◌≡◌, ◌≤◌, ◌<◌, ◌+◌, ◌&&◌, ℕ, true, not, max, length, IfOk};
ghost use Rattle.c0_lex.specs.declared.token.Symbol.TheVariants.{OpenParen};
ghost use Rattle.gc0_base.specs.declared.place.Place.{Place};
ghost use Rattle.parsed_tree.specs.declared.expressions.Named.{Named};
ghost use Rattle.parsed_tree.specs.Tree.{ExprTree, ExprTrees, outcome, no_exprs, expr_and};
ghost use Rattle.parsed_tree.specs.Views.{expr_view, exprs_view};
ghost use Rattle.c0_grammar.specs.Tokens.{sign_mark};
ghost use Rattle.c0_grammar.specs.Written.{spot};
ghost use Rattle.c0_grammar.specs.Allowed.{is_code, is_conjunct, has_calls};
ghost use Rattle.c0_grammar.specs.Plan.{Plan, text, node, step_if, unary_step, word_step, sign_step, operand, arrows, acc_arrows, ops, quest, more_args, climb, expr, primary, arguments, called_plan, behind_name, alloc_plan, path_start, acc_plan, round_plan};
ghost use Rattle.c0_cursor.specs.Seen.{reading, stepping, starts, mode_view, Parsed};
ghost use Rattle.c0_expressions.specs.Read.{IsFound, choices_plan, onto_args, text_called};

use crate::built::{
    Found, allocation, apply, call, call_text, choose, condition_fits, deeper, fits, join, local,
    local_path, null, number, outcome, outcome_path, permission, point, starting_at, step_to,
    truth,
};
use crate::part;
use c0_cursor::{
    Mark, Mode, NOWHERE, Names, Stop, any_name, begins, begins_string, expect, free_name,
    operator_of_rank, remaining, string, type_name,
};
use c0_lex::{Keyword, Symbol, Token, TokenKind};
use gc0_base::{Limits, Place};
use parsed_tree::{Expr, Named, UnaryOperator};
use sqlite_items::{Boxed, Items};
use std::alloc::{AllocError, Global};

// How many ranks the operators between two expressions have.
const RANKS: u32 = 10;

/// A whole expression, above which `up` nodes stand, and the tokens behind it.
#[cycle(expression)]
pub fn expression<'t, 'a>(
    alloc: Global,
    names: &Names<'a>,
    mode: Mode,
    up: u32,
    tokens: &'t [Token<'a>],
) -> Result<(Found, &'t [Token<'a>]), Stop>
    requires { up ≤ Limits.NESTING }
    ensures reads { (next : ExprTree → ℕ → Plan) → Parsed (λ x. reading (next (expr_view x.0.expr) x.0.depth) x.1.now) (reading (expr names.now (mode_view mode) up next) tokens.now) result }
    ensures found { IfOk result (λ x. IsFound up x.0) }
    ensures shorter { IfOk result (λ x. length x.1.now < length tokens.now) }
{
    let (test, rest) = part!(level(alloc, RANKS, names, mode, up, tokens));
    choice_behind(alloc, names, mode, up, test, rest)
}

// A `?` behind a condition, if one follows, and what it chooses between.
#[cycle(expression)]
fn choice_behind<'t, 'a>(
    alloc: Global,
    names: &Names<'a>,
    mode: Mode,
    up: u32,
    test: Found,
    tokens: &'t [Token<'a>],
) -> Result<(Found, &'t [Token<'a>]), Stop>
    requires { IsFound up test }
    ensures reads { (next : ExprTree → ℕ → Plan) → Parsed (λ x. reading (next (expr_view x.0.expr) x.0.depth) x.1.now) (reading (quest names.now (mode_view mode) up (expr_view test.expr) test.depth next) tokens.now) result }
    ensures found { IfOk result (λ x. IsFound up x.0) }
    ensures shorter { IfOk result (λ x. length x.1.now ≤ length tokens.now) }
{
    let Some((token, behind)) = tokens.split_first() else {
        return Ok((test, tokens));
    };
    if !Mark::Sign(Symbol::Question).is(token.kind) {
        return Ok((test, tokens));
    }
    if !condition_fits(mode, &test) {
        return Err(Stop::Syntax(token.place));
    }
    if up + test.depth >= Limits::NESTING {
        return Err(Stop::TooDeep(token.place));
    }
    let (yes, no, rest) = part!(choices(alloc, names, mode, up + 1, behind));
    Ok((choose(alloc, token.place, test, yes, no)?, rest))
}

// The two expressions of a choice, behind its `?`.
#[cycle(expression)]
fn choices<'t, 'a>(
    alloc: Global,
    names: &Names<'a>,
    mode: Mode,
    up: u32,
    tokens: &'t [Token<'a>],
) -> Result<(Found, Found, &'t [Token<'a>]), Stop>
    requires { up ≤ Limits.NESTING }
    ensures reads { (next : ExprTree → ℕ → ExprTree → ℕ → Plan) → Parsed (λ x. reading (next (expr_view x.0.expr) x.0.depth (expr_view x.1.expr) x.1.depth) x.2.now) (reading (choices_plan names.now (mode_view mode) up next) tokens.now) result }
    ensures yes { IfOk result (λ x. IsFound up x.0) }
    ensures no { IfOk result (λ x. IsFound up x.1) }
    ensures shorter { IfOk result (λ x. length x.2.now < length tokens.now) }
{
    let (yes, rest) = part!(expression(alloc, names, mode, up, tokens));
    let (_, rest) = part!(expect(Mark::Sign(Symbol::Colon), rest));
    let (no, rest) = part!(expression(alloc, names, mode, up, rest));
    Ok((yes, no, rest))
}

// An expression with operators of the ranks below this one.
#[cycle(expression)]
fn level<'t, 'a>(
    alloc: Global,
    rank: u32,
    names: &Names<'a>,
    mode: Mode,
    up: u32,
    tokens: &'t [Token<'a>],
) -> Result<(Found, &'t [Token<'a>]), Stop>
    requires rank { rank ≤ 10 }
    requires up { up ≤ Limits.NESTING }
    ensures reads { (next : ExprTree → ℕ → Plan) → Parsed (λ x. reading (next (expr_view x.0.expr) x.0.depth) x.1.now) (reading (climb rank names.now (mode_view mode) up next) tokens.now) result }
    ensures found { IfOk result (λ x. IsFound up x.0) }
    ensures shorter { IfOk result (λ x. length x.1.now < length tokens.now) }
{
    if rank == 0 {
        return unary_expression(alloc, names, mode, up, tokens);
    }
    let (left, rest) = part!(level(alloc, rank - 1, names, mode, up, tokens));
    operators_behind(alloc, rank - 1, names, mode, up, left, rest)
}

// The operators of one rank behind a left side; each makes it deeper, so there are few.
#[cycle(expression)]
fn operators_behind<'t, 'a>(
    alloc: Global,
    rank: u32,
    names: &Names<'a>,
    mode: Mode,
    up: u32,
    left: Found,
    tokens: &'t [Token<'a>],
) -> Result<(Found, &'t [Token<'a>]), Stop>
    requires rank { rank < 10 }
    requires left { IsFound up left }
    ensures reads { (next : ExprTree → ℕ → Plan) → Parsed (λ x. reading (next (expr_view x.0.expr) x.0.depth) x.1.now) (reading (ops rank names.now (mode_view mode) up (expr_view left.expr) left.depth next) tokens.now) result }
    ensures found { IfOk result (λ x. IsFound up x.0) }
    ensures shorter { IfOk result (λ x. length x.1.now ≤ length tokens.now) }
{
    let Some((token, behind)) = tokens.split_first() else {
        return Ok((left, tokens));
    };
    let Some(operator) = operator_of_rank(rank, token.kind) else {
        return Ok((left, tokens));
    };
    if !fits(mode, operator, &left) {
        return Err(Stop::Syntax(token.place));
    }
    if up + left.depth >= Limits::NESTING {
        return Err(Stop::TooDeep(token.place));
    }
    let (right, after) = part!(level(alloc, rank, names, mode.right_of(operator), up + 1, behind));
    let joined = join(alloc, token.place, operator, left, right)?;
    operators_behind(alloc, rank, names, mode, up, joined, after)
}

// A unary expression.
#[cycle(expression)]
fn unary_expression<'t, 'a>(
    alloc: Global,
    names: &Names<'a>,
    mode: Mode,
    up: u32,
    tokens: &'t [Token<'a>],
) -> Result<(Found, &'t [Token<'a>]), Stop>
    requires { up ≤ Limits.NESTING }
    ensures reads { (next : ExprTree → ℕ → Plan) → Parsed (λ x. reading (next (expr_view x.0.expr) x.0.depth) x.1.now) (reading (operand names.now (mode_view mode) up next) tokens.now) result }
    ensures found { IfOk result (λ x. IsFound up x.0) }
    ensures shorter { IfOk result (λ x. length x.1.now < length tokens.now) }
{
    let Some((token, rest)) = tokens.split_first() else {
        return Err(Stop::Syntax(NOWHERE));
    };
    let place = token.place;
    match token.kind {
        TokenKind::Number(word) => primary_behind(
            alloc,
            mode,
            up,
            number(alloc, place, word)?,
            rest,
        ),
        TokenKind::Name if !names.contains(token.text) => by_name(
            alloc, names, mode, up, place, token.text, rest,
        ),
        TokenKind::Keyword(keyword) => by_keyword(alloc, names, mode, up, place, keyword, rest),
        TokenKind::Symbol(symbol) => by_symbol(alloc, names, mode, up, place, symbol, rest),
        _ => Err(Stop::Syntax(place)),
    }
}

// A symbol at this place with which a unary expression begins.
#[cycle(expression)]
fn by_symbol<'t, 'a>(
    alloc: Global,
    names: &Names<'a>,
    mode: Mode,
    up: u32,
    place: Place,
    symbol: Symbol,
    tokens: &'t [Token<'a>],
) -> Result<(Found, &'t [Token<'a>]), Stop>
    requires { up ≤ Limits.NESTING }
    ensures reads { (next : ExprTree → ℕ → Plan) → Parsed (λ x. reading (next (expr_view x.0.expr) x.0.depth) x.1.now) (stepping (sign_step names.now (mode_view mode) up next symbol place) place tokens.now) result }
    ensures found { IfOk result (λ x. IsFound up x.0) }
    ensures shorter { IfOk result (λ x. length x.1.now < length tokens.now) }
{
    match symbol {
        Symbol::Minus => unary_behind(alloc, names, mode, up, place, UnaryOperator::Negate, tokens),
        Symbol::Tilde => unary_behind(alloc, names, mode, up, place, UnaryOperator::Not, tokens),
        Symbol::Not => unary_behind(alloc, names, mode, up, place, UnaryOperator::Flip, tokens),
        Symbol::OpenParen => round_behind(alloc, names, mode, up, place, tokens),
        _ => Err(Stop::Syntax(place)),
    }
}

// What stands behind a unary operator at this place.
#[cycle(expression)]
fn unary_behind<'t, 'a>(
    alloc: Global,
    names: &Names<'a>,
    mode: Mode,
    up: u32,
    place: Place,
    operator: UnaryOperator,
    tokens: &'t [Token<'a>],
) -> Result<(Found, &'t [Token<'a>]), Stop>
    requires { up ≤ Limits.NESTING }
    ensures reads { (next : ExprTree → ℕ → Plan) → Parsed (λ x. reading (next (expr_view x.0.expr) x.0.depth) x.1.now) (stepping (unary_step names.now (mode_view mode) up next operator place) place tokens.now) result }
    ensures found { IfOk result (λ x. IsFound up x.0) }
    ensures shorter { IfOk result (λ x. length x.1.now < length tokens.now) }
{
    if up >= Limits::NESTING {
        return Err(Stop::TooDeep(place));
    }
    let (e, rest) = part!(unary_expression(alloc, names, mode.inside(), up + 1, tokens));
    Ok((apply(alloc, place, operator, e)?, rest))
}

// What stands behind a parenthesis at this place.
#[cycle(expression)]
fn round_behind<'t, 'a>(
    alloc: Global,
    names: &Names<'a>,
    mode: Mode,
    up: u32,
    place: Place,
    tokens: &'t [Token<'a>],
) -> Result<(Found, &'t [Token<'a>]), Stop>
    requires { up ≤ Limits.NESTING }
    ensures reads { (next : ExprTree → ℕ → Plan) → Parsed (λ x. reading (next (expr_view x.0.expr) x.0.depth) x.1.now) (stepping (node (up + 1) (round_plan names.now (mode_view mode) up next place)) place tokens.now) result }
    ensures found { IfOk result (λ x. IsFound up x.0) }
    ensures shorter { IfOk result (λ x. length x.1.now < length tokens.now) }
{
    if up >= Limits::NESTING {
        return Err(Stop::TooDeep(place));
    }
    let (e, rest) = part!(expression(alloc, names, mode, up + 1, tokens));
    let (_, rest) = part!(expect(Mark::Sign(Symbol::CloseParen), rest));
    primary_behind(alloc, mode, up, starting_at(alloc, place, e)?, rest)
}

// A name at this place, and what it is called with or points to.
#[cycle(expression)]
fn by_name<'t, 'a>(
    alloc: Global,
    names: &Names<'a>,
    mode: Mode,
    up: u32,
    place: Place,
    name: &[u8],
    tokens: &'t [Token<'a>],
) -> Result<(Found, &'t [Token<'a>]), Stop>
    requires { up ≤ Limits.NESTING }
    ensures reads { (next : ExprTree → ℕ → Plan) → Parsed (λ x. reading (next (expr_view x.0.expr) x.0.depth) x.1.now) (reading (behind_name names.now (mode_view mode) up next place name.now) tokens.now) result }
    ensures found { IfOk result (λ x. IsFound up x.0) }
    ensures shorter { IfOk result (λ x. length x.1.now ≤ length tokens.now) }
{
    if begins_call(mode, tokens) {
        return called(alloc, names, mode, up, place, name, tokens);
    }
    let name = Items::from_slice(alloc, name)?;
    arrows_behind(alloc, up, local(alloc, place, name)?, tokens)
}

// Whether a parenthesis stands first that opens a call or an instance.
fn begins_call<'t, 'a>(mode: Mode, tokens: &'t [Token<'a>]) -> bool
    ensures { result ≡ (has_calls (mode_view mode) && starts (sign_mark OpenParen) tokens.now) }
{
    mode.has_calls() && begins(Mark::Sign(Symbol::OpenParen), tokens)
}

// A call or an instance, of this name.
#[cycle(expression)]
fn called<'t, 'a>(
    alloc: Global,
    names: &Names<'a>,
    mode: Mode,
    up: u32,
    place: Place,
    name: &[u8],
    tokens: &'t [Token<'a>],
) -> Result<(Found, &'t [Token<'a>]), Stop>
    requires up { up ≤ Limits.NESTING }
    requires begins { (has_calls (mode_view mode) && starts (sign_mark OpenParen) tokens.now) ≡ true }
    ensures reads { (next : ExprTree → ℕ → Plan) → Parsed (λ x. reading (next (expr_view x.0.expr) x.0.depth) x.1.now) (reading (behind_name names.now (mode_view mode) up next place name.now) tokens.now) result }
    ensures found { IfOk result (λ x. IsFound up x.0) }
    ensures shorter { IfOk result (λ x. length x.1.now ≤ length tokens.now) }
{
    let Some((token, rest)) = tokens.split_first() else {
        return Err(Stop::Syntax(NOWHERE));
    };
    if up >= Limits::NESTING {
        return Err(Stop::TooDeep(token.place));
    }
    let name = Items::from_slice(alloc, name)?;
    if mode.is_code() {
        return call_behind(alloc, names, up, place, name, rest);
    }
    let (arguments, depth, rest) = part!(arguments_of(alloc, names, Mode::Value, up + 1, rest));
    Ok((call(alloc, place, name, arguments, depth)?, rest))
}

// The arguments of a call of the code, behind its parenthesis, or its one string literal.
#[cycle(expression)]
fn call_behind<'t, 'a>(
    alloc: Global,
    names: &Names<'a>,
    up: u32,
    place: Place,
    name: Items<u8>,
    tokens: &'t [Token<'a>],
) -> Result<(Found, &'t [Token<'a>]), Stop>
    requires { up < Limits.NESTING }
    ensures reads { (next : ExprTree → ℕ → Plan) → Parsed (λ x. reading (next (expr_view x.0.expr) x.0.depth) x.1.now) (reading (called_plan names.now up next place name) tokens.now) result }
    ensures found { IfOk result (λ x. IsFound up x.0) }
    ensures shorter { IfOk result (λ x. length x.1.now < length tokens.now) }
{
    if begins_string(tokens) {
        return text_behind(alloc, up, place, name, tokens);
    }
    let (arguments, depth, rest) = part!(arguments_of(alloc, names, Mode::Code, up + 1, tokens));
    let e = call(alloc, place, name, arguments, depth)?;
    arrows_behind(alloc, up, e, rest)
}

// The one string literal of a call, behind its parenthesis.
fn text_behind<'t, 'a>(
    alloc: Global,
    up: u32,
    place: Place,
    name: Items<u8>,
    tokens: &'t [Token<'a>],
) -> Result<(Found, &'t [Token<'a>]), Stop>
    requires { up < Limits.NESTING }
    ensures reads { (next : ExprTree → ℕ → Plan) → Parsed (λ x. reading (next (expr_view x.0.expr) x.0.depth) x.1.now) (reading (text (text_called up next place name)) tokens.now) result }
    ensures found { IfOk result (λ x. IsFound up x.0) }
    ensures shorter { IfOk result (λ x. length x.1.now < length tokens.now) }
{
    let (text, rest) = part!(string(alloc, tokens));
    let (_, rest) = part!(expect(Mark::Sign(Symbol::CloseParen), rest));
    arrows_behind(alloc, up, call_text(alloc, place, name, text)?, rest)
}

// The arguments behind a parenthesis, how deep they are, and the closing one.
#[cycle(expression)]
pub fn arguments_of<'t, 'a>(
    alloc: Global,
    names: &Names<'a>,
    mode: Mode,
    up: u32,
    tokens: &'t [Token<'a>],
) -> Result<(Items<Expr>, u32, &'t [Token<'a>]), Stop>
    requires { up ≤ Limits.NESTING }
    ensures reads { (next : ExprTrees → ℕ → Plan) → Parsed (λ x. reading (next (exprs_view x.0) x.1) x.2.now) (reading (arguments names.now (mode_view mode) up next) tokens.now) result }
    ensures room { IfOk result (λ x. up + x.1 ≤ Limits.NESTING) }
    ensures shorter { IfOk result (λ x. length x.2.now < length tokens.now) }
{
    if begins(Mark::Sign(Symbol::CloseParen), tokens) {
        let (_, rest) = part!(expect(Mark::Sign(Symbol::CloseParen), tokens));
        return Ok((Items::new(alloc), 0, rest));
    }
    let (e, rest) = part!(expression(alloc, names, mode, up, tokens));
    let depth = e.depth;
    let found = one(alloc, e.expr)?;
    more_arguments(alloc, names, mode, up, found, depth, rest)
}

// The arguments so far, with those that commas lead to, and the closing parenthesis.
#[cycle(expression)]
fn more_arguments<'t, 'a>(
    alloc: Global,
    names: &Names<'a>,
    mode: Mode,
    up: u32,
    so_far: Items<Expr>,
    depth: u32,
    tokens: &'t [Token<'a>],
) -> Result<(Items<Expr>, u32, &'t [Token<'a>]), Stop>
    requires { up + depth ≤ Limits.NESTING }
    ensures reads { (next : ExprTrees → ℕ → Plan) → Parsed (λ x. reading (next (exprs_view x.0) x.1) x.2.now) (reading (more_args names.now (mode_view mode) up (onto_args (exprs_view so_far) depth next)) tokens.now) result }
    ensures room { IfOk result (λ x. up + x.1 ≤ Limits.NESTING) }
    ensures shorter { IfOk result (λ x. length x.2.now < length tokens.now) }
{
    let mut found = so_far;
    let mut deepest = depth;
    let mut rest = tokens;
    'commas: while begins(Mark::Sign(Symbol::Comma), rest) {
        let (_, behind) = part!(expect(Mark::Sign(Symbol::Comma), rest));
        let (e, after) = part!(expression(alloc, names, mode, up, behind));
        deepest = deeper(deepest, e.depth);
        found.push(e.expr.into_inner())?;
        rest = remaining(after);
    }
    let (_, rest) = part!(expect(Mark::Sign(Symbol::CloseParen), rest));
    Ok((found, deepest, rest))
}

fn one(alloc: Global, e: Boxed<Expr>) -> Result<Items<Expr>, AllocError>
    ensures { IfOk result (λ x. exprs_view x ≡ expr_and (expr_view e) no_exprs) }
{
    let mut found = Items::new(alloc);
    found.push(e.into_inner())?;
    Ok(found)
}

// A word at this place with which a unary expression begins.
fn by_keyword<'t, 'a>(
    alloc: Global,
    names: &Names<'a>,
    mode: Mode,
    up: u32,
    place: Place,
    keyword: Keyword,
    tokens: &'t [Token<'a>],
) -> Result<(Found, &'t [Token<'a>]), Stop>
    requires { up ≤ Limits.NESTING }
    ensures reads { (next : ExprTree → ℕ → Plan) → Parsed (λ x. reading (next (expr_view x.0.expr) x.0.depth) x.1.now) (stepping (word_step names.now (mode_view mode) up next keyword place) place tokens.now) result }
    ensures found { IfOk result (λ x. IsFound up x.0) }
    ensures shorter { IfOk result (λ x. length x.1.now ≤ length tokens.now) }
{
    match keyword {
        Keyword::True => primary_behind(alloc, mode, up, truth(alloc, place, true)?, tokens),
        Keyword::False => primary_behind(alloc, mode, up, truth(alloc, place, false)?, tokens),
        Keyword::Null => primary_behind(alloc, mode, up, null(alloc, place)?, tokens),
        Keyword::Outcome => outcome_behind(alloc, mode, up, place, tokens),
        Keyword::Alloc => allocated(alloc, names, mode, up, place, tokens),
        Keyword::Acc => permitted(alloc, names, mode, up, place, tokens),
        _ => Err(Stop::Syntax(place)),
    }
}

// `\result` at this place, which stands in formulas alone, and what it points to.
fn outcome_behind<'t, 'a>(
    alloc: Global,
    mode: Mode,
    up: u32,
    place: Place,
    tokens: &'t [Token<'a>],
) -> Result<(Found, &'t [Token<'a>]), Stop>
    requires { up ≤ Limits.NESTING }
    ensures reads { (next : ExprTree → ℕ → Plan) → Parsed (λ x. reading (next (expr_view x.0.expr) x.0.depth) x.1.now) (stepping (step_if (not (is_code (mode_view mode))) (node up (arrows up (outcome (spot place)) 0 next))) place tokens.now) result }
    ensures found { IfOk result (λ x. IsFound up x.0) }
    ensures shorter { IfOk result (λ x. length x.1.now ≤ length tokens.now) }
{
    if mode.is_code() {
        return Err(Stop::Syntax(place));
    }
    arrows_behind(alloc, up, outcome(alloc, place)?, tokens)
}

// The word `alloc` at this place, which stands in the code alone.
fn allocated<'t, 'a>(
    alloc: Global,
    names: &Names<'a>,
    mode: Mode,
    up: u32,
    place: Place,
    tokens: &'t [Token<'a>],
) -> Result<(Found, &'t [Token<'a>]), Stop>
    requires { up ≤ Limits.NESTING }
    ensures reads { (next : ExprTree → ℕ → Plan) → Parsed (λ x. reading (next (expr_view x.0.expr) x.0.depth) x.1.now) (stepping (step_if (is_code (mode_view mode)) (node up (alloc_plan names.now up next place))) place tokens.now) result }
    ensures found { IfOk result (λ x. IsFound up x.0) }
    ensures shorter { IfOk result (λ x. length x.1.now < length tokens.now) }
{
    if !mode.is_code() {
        return Err(Stop::Syntax(place));
    }
    alloc_behind(alloc, names, up, place, tokens)
}

// The word `acc` at this place, which stands as a conjunct alone.
fn permitted<'t, 'a>(
    alloc: Global,
    names: &Names<'a>,
    mode: Mode,
    up: u32,
    place: Place,
    tokens: &'t [Token<'a>],
) -> Result<(Found, &'t [Token<'a>]), Stop>
    requires { up ≤ Limits.NESTING }
    ensures reads { (next : ExprTree → ℕ → Plan) → Parsed (λ x. reading (next (expr_view x.0.expr) x.0.depth) x.1.now) (stepping (step_if (is_conjunct (mode_view mode)) (node (up + 2) (acc_plan names.now up next place))) place tokens.now) result }
    ensures found { IfOk result (λ x. IsFound up x.0) }
    ensures shorter { IfOk result (λ x. length x.1.now < length tokens.now) }
{
    if !mode.is_conjunct() {
        return Err(Stop::Syntax(place));
    }
    acc_behind(alloc, names, up, place, tokens)
}

// The type behind the word `alloc` at this place.
fn alloc_behind<'t, 'a>(
    alloc: Global,
    names: &Names<'a>,
    up: u32,
    place: Place,
    tokens: &'t [Token<'a>],
) -> Result<(Found, &'t [Token<'a>]), Stop>
    requires { up ≤ Limits.NESTING }
    ensures reads { (next : ExprTree → ℕ → Plan) → Parsed (λ x. reading (next (expr_view x.0.expr) x.0.depth) x.1.now) (reading (alloc_plan names.now up next place) tokens.now) result }
    ensures found { IfOk result (λ x. IsFound up x.0) }
    ensures shorter { IfOk result (λ x. length x.1.now < length tokens.now) }
{
    let (_, rest) = part!(expect(Mark::Sign(Symbol::OpenParen), tokens));
    let (typed, rest) = part!(type_name(alloc, names, rest));
    let (_, rest) = part!(expect(Mark::Sign(Symbol::CloseParen), rest));
    arrows_behind(alloc, up, allocation(alloc, place, typed)?, rest)
}

// The path and the field behind the word `acc` at this place.
fn acc_behind<'t, 'a>(
    alloc: Global,
    names: &Names<'a>,
    up: u32,
    place: Place,
    tokens: &'t [Token<'a>],
) -> Result<(Found, &'t [Token<'a>]), Stop>
    requires { up ≤ Limits.NESTING }
    ensures reads { (next : ExprTree → ℕ → Plan) → Parsed (λ x. reading (next (expr_view x.0.expr) x.0.depth) x.1.now) (stepping (node (up + 2) (acc_plan names.now up next place)) place tokens.now) result }
    ensures found { IfOk result (λ x. IsFound up x.0) }
    ensures shorter { IfOk result (λ x. length x.1.now < length tokens.now) }
{
    if up + 2 > Limits::NESTING {
        return Err(Stop::TooDeep(place));
    }
    let (_, rest) = part!(expect(Mark::Sign(Symbol::OpenParen), tokens));
    let (path, rest) = part!(path_start_of(alloc, names, rest));
    let (at, rest) = part!(expect(Mark::Sign(Symbol::Arrow), rest));
    let (field, rest) = part!(any_name(alloc, rest));
    let (path, depth, at, field, rest) = part!(acc_end(alloc, up, path, 0, at, field, rest));
    Ok((permission(alloc, place, path, at, field, depth)?, rest))
}

// A local or `\result`, with which a path begins.
fn path_start_of<'t, 'a>(
    alloc: Global,
    names: &Names<'a>,
    tokens: &'t [Token<'a>],
) -> Result<(Boxed<Expr>, &'t [Token<'a>]), Stop>
    ensures reads { (next : ExprTree → Plan) → Parsed (λ x. reading (next (expr_view x.0)) x.1.now) (reading (path_start names.now next) tokens.now) result }
    ensures shorter { IfOk result (λ x. length x.1.now < length tokens.now) }
{
    if begins(Mark::Word(Keyword::Outcome), tokens) {
        let (place, rest) = part!(expect(Mark::Word(Keyword::Outcome), tokens));
        return Ok((outcome_path(alloc, place)?, rest));
    }
    let (name, rest) = part!(free_name(alloc, names, tokens));
    Ok((local_path(alloc, name)?, rest))
}

// Behind a `->` and a field of an `acc`: each further `->` makes those before it a part of the
// path, which is deeper then, so there are few. The path in the end, how deep it is, and the last
// `->` and field.
fn acc_end<'t, 'a>(
    alloc: Global,
    up: u32,
    path: Boxed<Expr>,
    depth: u32,
    at: Place,
    field: Named,
    tokens: &'t [Token<'a>],
) -> Result<(Boxed<Expr>, u32, Place, Named, &'t [Token<'a>]), Stop>
    requires { up + depth + 2 ≤ Limits.NESTING }
    ensures reads { (next : ExprTree → ℕ → Place → Named → Plan) → Parsed (λ x. reading (next (expr_view x.0) x.1 x.2 x.3) x.4.now) (reading (acc_arrows up (expr_view path) depth at field next) tokens.now) result }
    ensures room { IfOk result (λ x. up + x.1 + 2 ≤ Limits.NESTING) }
    ensures shorter { IfOk result (λ x. length x.4.now < length tokens.now) }
{
    let Some((token, behind)) = tokens.split_first() else {
        return Err(Stop::Syntax(NOWHERE));
    };
    match token.kind {
        TokenKind::Symbol(Symbol::CloseParen) => Ok((path, depth, at, field, behind)),
        TokenKind::Symbol(Symbol::Arrow) => {
            if up + depth + 3 > Limits::NESTING {
                return Err(Stop::TooDeep(token.place));
            }
            let (name, after) = part!(any_name(alloc, behind));
            let longer = point(alloc, at, path, field)?;
            acc_end(alloc, up, longer, depth + 1, token.place, name, after)
        }
        _ => Err(Stop::Syntax(token.place)),
    }
}

// What may stand before a `->` in the code alone.
fn primary_behind<'t, 'a>(
    alloc: Global,
    mode: Mode,
    up: u32,
    e: Found,
    tokens: &'t [Token<'a>],
) -> Result<(Found, &'t [Token<'a>]), Stop>
    requires { IsFound up e }
    ensures reads { (next : ExprTree → ℕ → Plan) → Parsed (λ x. reading (next (expr_view x.0.expr) x.0.depth) x.1.now) (reading (primary (mode_view mode) up next (expr_view e.expr) e.depth) tokens.now) result }
    ensures found { IfOk result (λ x. IsFound up x.0) }
    ensures shorter { IfOk result (λ x. length x.1.now ≤ length tokens.now) }
{
    match mode {
        Mode::Code => arrows_behind(alloc, up, e, tokens),
        _ => Ok((e, tokens)),
    }
}

// Every `->` that follows; each makes what stands before it deeper, so there are few.
fn arrows_behind<'t, 'a>(
    alloc: Global,
    up: u32,
    e: Found,
    tokens: &'t [Token<'a>],
) -> Result<(Found, &'t [Token<'a>]), Stop>
    requires { IsFound up e }
    ensures reads { (next : ExprTree → ℕ → Plan) → Parsed (λ x. reading (next (expr_view x.0.expr) x.0.depth) x.1.now) (reading (arrows up (expr_view e.expr) e.depth next) tokens.now) result }
    ensures found { IfOk result (λ x. IsFound up x.0) }
    ensures shorter { IfOk result (λ x. length x.1.now ≤ length tokens.now) }
{
    let Some((token, behind)) = tokens.split_first() else {
        return Ok((e, tokens));
    };
    if !Mark::Sign(Symbol::Arrow).is(token.kind) {
        return Ok((e, tokens));
    }
    if up + e.depth >= Limits::NESTING {
        return Err(Stop::TooDeep(token.place));
    }
    let (field, after) = part!(any_name(alloc, behind));
    let longer = step_to(alloc, token.place, e, field)?;
    arrows_behind(alloc, up, longer, after)
}
