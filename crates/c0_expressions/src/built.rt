//! Expressions made of their parts.

ghost use Rattle.std.specs.Prelude.{◌≡◌, ◌&&◌, ◌+◌, ◌≤◌, ◌<◌, max, false, true, IfOk};
ghost use Rattle.parsed_tree.specs.Tree.{spot_of, number, truth, null, local, outcome, alloc as alloc_tree, acc, unary, from, call, call_text};
ghost use Rattle.parsed_tree.specs.Views.{expr_view, exprs_view};
ghost use Rattle.c0_grammar.specs.Written.{spot, joined, chosen, pointed};
ghost use Rattle.c0_grammar.specs.Allowed.{has, left_fits, condition_fits, is_value};
ghost use Rattle.c0_cursor.specs.Seen.{mode_view};
ghost use Rattle.c0_expressions.specs.Read.{IsFound};

use c0_cursor::Mode;
use gc0_base::{Limits, Place, Word};
use parsed_tree::{Expr, Named, Operator, Spot, Text, TypeName, UnaryOperator};
use sqlite_items::{Boxed, Items};
use std::alloc::{AllocError, Global};

/// An expression that was read.
#[derive(Drop)]
pub struct Found {
    pub expr: Boxed<Expr>,
    /// How many nodes stand on its longest path.
    pub depth: u32,
    /// Whether no `acc` and no instance stands in it.
    pub value: bool,
}

// This operator may stand here, behind this left side.
pub fn fits(mode: Mode, operator: Operator, left: &Found) -> bool
    requires { left.now.value ≡ is_value (expr_view left.now.expr) }
    ensures { result ≡ (has (mode_view mode) operator && left_fits (mode_view mode) operator (expr_view left.now.expr)) }
{
    mode.has(operator) && left_fits(mode, operator, left)
}

// What stands to the left of this operator may stand there.
fn left_fits(mode: Mode, operator: Operator, left: &Found) -> bool
    requires { left.now.value ≡ is_value (expr_view left.now.expr) }
    ensures { result ≡ left_fits (mode_view mode) operator (expr_view left.now.expr) }
{
    match (mode, operator) {
        (Mode::Conjunct, Operator::Both) => true,
        (Mode::Conjunct, _) => left.value,
        _ => true,
    }
}

// What stands before a `?` may stand there.
pub fn condition_fits(mode: Mode, test: &Found) -> bool
    requires { test.now.value ≡ is_value (expr_view test.now.expr) }
    ensures { result ≡ condition_fits (mode_view mode) (expr_view test.now.expr) }
{
    match mode {
        Mode::Conjunct => test.value,
        _ => true,
    }
}

// The greater of two depths.
pub fn deeper(a: u32, b: u32) -> u32
    ensures { result ≡ max a b }
{
    a.max(b)
}

// A local or `\result`, as the front of a path.
pub fn local_path(alloc: Global, named: Named) -> Result<Boxed<Expr>, AllocError>
    ensures { IfOk result (λ x. expr_view x ≡ local (spot named.place) named.name) }
{
    Boxed::new(alloc, Expr::Local(spot_at(named.place), named.name))
}

pub fn outcome_path(alloc: Global, place: Place) -> Result<Boxed<Expr>, AllocError>
    ensures { IfOk result (λ x. expr_view x ≡ outcome (spot place)) }
{
    Boxed::new(alloc, Expr::Outcome(spot_at(place)))
}

fn spot_at(place: Place) -> Spot
    ensures { result ≡ spot place }
{
    Spot {
        place,
        first: place,
    }
}

// An expression in a box of its own: where it is found, so that nothing wide is handed on.
fn made(alloc: Global, expr: Expr, depth: u32, value: bool) -> Result<Found, AllocError>
    ensures { IfOk result (λ x. x ≡ record { expr = expr; depth = depth; value = value }) }
{
    let expr = Boxed::new(alloc, expr)?;
    Ok(Found { expr, depth, value })
}

// An expression without a node.
fn leaf(alloc: Global, expr: Expr) -> Result<Found, AllocError>
    ensures { IfOk result (λ x. x ≡ record { expr = expr; depth = 0; value = true }) }
{
    made(alloc, expr, 0, true)
}

// A literal number.
pub fn number(alloc: Global, place: Place, word: Word) -> Result<Found, AllocError>
    ensures expr { IfOk result (λ x. expr_view x.expr ≡ number (spot place) word) }
    ensures depth { IfOk result (λ x. x.depth ≡ 0) }
    ensures value { IfOk result (λ x. x.value ≡ is_value (expr_view x.expr)) }
{
    leaf(alloc, Expr::Number(spot_at(place), word))
}

// `true` or `false`.
pub fn truth(alloc: Global, place: Place, holds: bool) -> Result<Found, AllocError>
    ensures expr { IfOk result (λ x. expr_view x.expr ≡ truth (spot place) holds) }
    ensures depth { IfOk result (λ x. x.depth ≡ 0) }
    ensures value { IfOk result (λ x. x.value ≡ is_value (expr_view x.expr)) }
{
    leaf(alloc, Expr::Truth(spot_at(place), holds))
}

// `NULL`.
pub fn null(alloc: Global, place: Place) -> Result<Found, AllocError>
    ensures expr { IfOk result (λ x. expr_view x.expr ≡ null (spot place)) }
    ensures depth { IfOk result (λ x. x.depth ≡ 0) }
    ensures value { IfOk result (λ x. x.value ≡ is_value (expr_view x.expr)) }
{
    leaf(alloc, Expr::Null(spot_at(place)))
}

// A local.
pub fn local(alloc: Global, place: Place, name: Items<u8>) -> Result<Found, AllocError>
    ensures expr { IfOk result (λ x. expr_view x.expr ≡ local (spot place) name) }
    ensures depth { IfOk result (λ x. x.depth ≡ 0) }
    ensures value { IfOk result (λ x. x.value ≡ is_value (expr_view x.expr)) }
{
    leaf(alloc, Expr::Local(spot_at(place), name))
}

// `\result`.
pub fn outcome(alloc: Global, place: Place) -> Result<Found, AllocError>
    ensures expr { IfOk result (λ x. expr_view x.expr ≡ outcome (spot place)) }
    ensures depth { IfOk result (λ x. x.depth ≡ 0) }
    ensures value { IfOk result (λ x. x.value ≡ is_value (expr_view x.expr)) }
{
    leaf(alloc, Expr::Outcome(spot_at(place)))
}

// `alloc(T)`.
pub fn allocation(alloc: Global, place: Place, typed: TypeName) -> Result<Found, AllocError>
    ensures expr { IfOk result (λ x. expr_view x.expr ≡ alloc_tree (spot place) typed) }
    ensures depth { IfOk result (λ x. x.depth ≡ 0) }
    ensures value { IfOk result (λ x. x.value ≡ is_value (expr_view x.expr)) }
{
    leaf(alloc, Expr::Alloc(spot_at(place), typed))
}

// `acc(path->field)`, where the path is so deep.
pub fn permission(
    alloc: Global,
    place: Place,
    path: Boxed<Expr>,
    at: Place,
    field: Named,
    depth: u32,
) -> Result<Found, AllocError>
    requires { depth + 2 ≤ Limits.NESTING }
    ensures expr { IfOk result (λ x. expr_view x.expr ≡ acc (spot place) (expr_view path) at field) }
    ensures depth { IfOk result (λ x. x.depth ≡ depth + 2) }
    ensures value { IfOk result (λ x. x.value ≡ is_value (expr_view x.expr)) }
{
    made(
        alloc,
        Expr::Acc(spot_at(place), path, at, field),
        depth + 2,
        false,
    )
}

pub fn apply(
    alloc: Global,
    place: Place,
    operator: UnaryOperator,
    e: Found,
) -> Result<Found, AllocError>
    requires { e.depth < Limits.NESTING }
    ensures expr { IfOk result (λ x. expr_view x.expr ≡ unary (spot place) operator (expr_view e.expr)) }
    ensures depth { IfOk result (λ x. x.depth ≡ e.depth + 1) }
    ensures value { e.value ≡ is_value (expr_view e.expr) → IfOk result (λ x. x.value ≡ is_value (expr_view x.expr)) }
{
    made(
        alloc,
        Expr::Unary(spot_at(place), operator, e.expr),
        e.depth + 1,
        e.value,
    )
}

fn spot_behind(place: Place, left: &Expr) -> Spot
    ensures { result ≡ record { place = place; first = (spot_of (expr_view left.now)).first } }
{
    Spot {
        place,
        first: left.spot().first,
    }
}

pub fn join(
    alloc: Global,
    place: Place,
    operator: Operator,
    a: Found,
    b: Found,
) -> Result<Found, AllocError>
    requires left { a.depth < Limits.NESTING }
    requires right { b.depth < Limits.NESTING }
    ensures expr { IfOk result (λ x. expr_view x.expr ≡ joined place operator (expr_view a.expr) (expr_view b.expr)) }
    ensures depth { IfOk result (λ x. x.depth ≡ max a.depth b.depth + 1) }
    ensures value { a.value ≡ is_value (expr_view a.expr) → b.value ≡ is_value (expr_view b.expr) → IfOk result (λ x. x.value ≡ is_value (expr_view x.expr)) }
{
    let spot = spot_behind(place, a.expr.get());
    let depth = a.depth.max(b.depth) + 1;
    let value = a.value && b.value;
    made(
        alloc,
        Expr::Binary(spot, operator, a.expr, b.expr),
        depth,
        value,
    )
}

pub fn choose(
    alloc: Global,
    place: Place,
    a: Found,
    b: Found,
    c: Found,
) -> Result<Found, AllocError>
    requires first { a.depth < Limits.NESTING }
    requires second { b.depth < Limits.NESTING }
    requires third { c.depth < Limits.NESTING }
    ensures expr { IfOk result (λ x. expr_view x.expr ≡ chosen place (expr_view a.expr) (expr_view b.expr) (expr_view c.expr)) }
    ensures depth { IfOk result (λ x. x.depth ≡ max a.depth (max b.depth c.depth) + 1) }
    ensures value { a.value ≡ is_value (expr_view a.expr) → b.value ≡ is_value (expr_view b.expr) → c.value ≡ is_value (expr_view c.expr) → IfOk result (λ x. x.value ≡ is_value (expr_view x.expr)) }
{
    let spot = spot_behind(place, a.expr.get());
    let depth = a.depth.max(b.depth.max(c.depth)) + 1;
    let value = a.value && b.value && c.value;
    made(
        alloc,
        Expr::Choose(spot, a.expr, b.expr, c.expr),
        depth,
        value,
    )
}

// `path->field`, with the place of the `->`.
pub fn point(
    alloc: Global,
    place: Place,
    path: Boxed<Expr>,
    field: Named,
) -> Result<Boxed<Expr>, AllocError>
    ensures { IfOk result (λ x. expr_view x ≡ pointed place (expr_view path) field) }
{
    let spot = spot_behind(place, path.get());
    Boxed::new(alloc, Expr::Arrow(spot, path, field))
}

pub fn step_to(alloc: Global, place: Place, e: Found, field: Named) -> Result<Found, AllocError>
    requires { e.depth < Limits.NESTING }
    ensures expr { IfOk result (λ x. expr_view x.expr ≡ pointed place (expr_view e.expr) field) }
    ensures depth { IfOk result (λ x. x.depth ≡ e.depth + 1) }
    ensures value { e.value ≡ is_value (expr_view e.expr) → IfOk result (λ x. x.value ≡ is_value (expr_view x.expr)) }
{
    let depth = e.depth + 1;
    let value = e.value;
    let expr = point(alloc, place, e.expr, field)?;
    Ok(Found { expr, depth, value })
}

pub fn call(
    alloc: Global,
    place: Place,
    name: Items<u8>,
    arguments: Items<Expr>,
    depth: u32,
) -> Result<Found, AllocError>
    requires { depth < Limits.NESTING }
    ensures expr { IfOk result (λ x. expr_view x.expr ≡ call (spot place) name (exprs_view arguments)) }
    ensures depth { IfOk result (λ x. x.depth ≡ depth + 1) }
    ensures value { IfOk result (λ x. x.value ≡ is_value (expr_view x.expr)) }
{
    made(
        alloc,
        Expr::Call(spot_at(place), name, arguments),
        depth + 1,
        false,
    )
}

pub fn call_text(
    alloc: Global,
    place: Place,
    name: Items<u8>,
    text: Text,
) -> Result<Found, AllocError>
    ensures expr { IfOk result (λ x. expr_view x.expr ≡ call_text (spot place) name text) }
    ensures depth { IfOk result (λ x. x.depth ≡ 1) }
    ensures value { IfOk result (λ x. x.value ≡ is_value (expr_view x.expr)) }
{
    made(alloc, Expr::CallText(spot_at(place), name, text), 1, true)
}

// The expression with its first token at a parenthesis, which is a node.
pub fn starting_at(alloc: Global, first: Place, e: Found) -> Result<Found, AllocError>
    requires { e.depth < Limits.NESTING }
    ensures expr { IfOk result (λ x. expr_view x.expr ≡ from first (expr_view e.expr)) }
    ensures depth { IfOk result (λ x. x.depth ≡ e.depth + 1) }
    ensures value { e.value ≡ is_value (expr_view e.expr) → IfOk result (λ x. x.value ≡ is_value (expr_view x.expr)) }
{
    made(
        alloc,
        begun_at(first, e.expr.into_inner()),
        e.depth + 1,
        e.value,
    )
}

fn begun_at(first: Place, e: Expr) -> Expr
    ensures { expr_view result ≡ from first (expr_view e) }
{
    match e {
        Expr::Number(spot, word) => Expr::Number(begun(first, spot), word),
        Expr::Truth(spot, truth) => Expr::Truth(begun(first, spot), truth),
        Expr::Null(spot) => Expr::Null(begun(first, spot)),
        Expr::Local(spot, name) => Expr::Local(begun(first, spot), name),
        Expr::Outcome(spot) => Expr::Outcome(begun(first, spot)),
        Expr::Unary(spot, operator, e) => Expr::Unary(begun(first, spot), operator, e),
        Expr::Binary(spot, operator, a, b) => Expr::Binary(begun(first, spot), operator, a, b),
        Expr::Choose(spot, a, b, c) => Expr::Choose(begun(first, spot), a, b, c),
        Expr::Arrow(spot, e, field) => Expr::Arrow(begun(first, spot), e, field),
        Expr::Call(spot, name, arguments) => Expr::Call(begun(first, spot), name, arguments),
        Expr::CallText(spot, name, text) => Expr::CallText(begun(first, spot), name, text),
        Expr::Alloc(spot, typed) => Expr::Alloc(begun(first, spot), typed),
        Expr::Acc(spot, path, at, field) => Expr::Acc(begun(first, spot), path, at, field),
    }
}

fn begun(first: Place, spot: Spot) -> Spot
    ensures { result ≡ record spot { first = first } }
{
    Spot {
        place: spot.place,
        first,
    }
}
