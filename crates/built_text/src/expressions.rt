//! Expressions, calls, formulas and notes.
#![tactic(auto, using(crate::proofs::Failing::fails_as))]

ghost use Rattle.std.specs.Prelude.{◌≡◌, ◌≤◌, ◌<◌, ◌+◌, ◌-◌, [], ◌∷◌, ◌++◌, ℕ, List, length, IfOk, Option};
ghost use Rattle.built_text.specs.Tree.{ExprTree, CallTree, RightTree, FormulaTree, NoteTree, number, truth, local, outcome, unary, from};
ghost use Rattle.built_text.specs.Grammar.{spot, joined, rank};
ghost use Rattle.built_text.specs.Views.{expr_view, exprs_view, call_view, right_view, formula_view, note_view};
ghost use Rattle.built_text.specs.Plan.{Plan, await, operand, ops, climb, expr, chain, arguments, right_side, whole_call, formula, noted, run, of_rank, operator_at, operator_of, Answers};

use crate::cursor::{NOWHERE, begins, begins_call, expect, identifier, is};
use crate::token::{Fixed, Kind, Token};
use crate::tree::{Call, Expr, Formula, Note, Operator, ReadFault, Right, Spot, UnaryOperator};
use gc0_base::{Limits, Place};
use sqlite_items::{Boxed, Items};
use std::alloc::{AllocError, Global};

// How many operators between two expressions one expression may have: as many as a source text has
// bytes, so no text within the limits has more.
const MOST_OPERATORS: u32 = Limits::SOURCE as u32;

// How many ranks the operators between two expressions have.
const RANKS: u32 = 4;

/// An expression, in which `!`, `-` and `(` nest at most `room` deep, and `\result` stands only
/// if `outcome` is true; and the tokens behind it.
pub fn expression(
    alloc: Global,
    outcome: bool,
    room: u32,
    tokens: &[Token],
) -> Result<(Expr, &[Token]), ReadFault>
    ensures reads { (next : ExprTree → Plan) → Answers (λ x. run (next (expr_view x.0)) x.1.now) (run (expr outcome room next) tokens.now) result }
    ensures shorter { IfOk result (λ x. length x.1.now < length tokens.now) }
{
    let (e, _left, rest) = part!(level(alloc, RANKS, outcome, room, MOST_OPERATORS, tokens));
    Ok((e, rest))
}

// An expression with operators of the ranks below this one, of which it may have `left`; and
// how many are left then.
#[cycle(expression)]
fn level(
    alloc: Global,
    rank: u32,
    outcome: bool,
    room: u32,
    left: u32,
    tokens: &[Token],
) -> Result<(Expr, u32, &[Token]), ReadFault>
    requires { rank ≤ 4 }
    ensures reads { (next : ExprTree → ℕ → Plan) → Answers (λ x. run (next (expr_view x.0) x.1) x.2.now) (run (climb rank outcome room left next) tokens.now) result }
    ensures shorter { IfOk result (λ x. length x.2.now < length tokens.now) }
{
    if rank == 0 {
        return primary(alloc, outcome, room, left, tokens);
    }
    let (mut e, mut left, mut rest) = part!(level(alloc, rank - 1, outcome, room, left, tokens));
    while let Some((token, behind)) = rest.split_first() {
        let Some(operator) = operator_of_rank(rank - 1, &token.kind) else {
            break;
        };
        if left == 0 {
            return Err(ReadFault::NotBuilt(token.place));
        }
        let (right, spare, after) = part!(level(alloc, rank - 1, outcome, room, left - 1, behind));
        e = join(alloc, token.place, operator, e, right)?;
        left = spare;
        rest = after;
    }
    Ok((e, left, rest))
}

// A number, a truth, a name, `\result`, or what begins with `!`, `-` or `(`.
#[cycle(expression)]
fn primary(
    alloc: Global,
    outcome: bool,
    room: u32,
    left: u32,
    tokens: &[Token],
) -> Result<(Expr, u32, &[Token]), ReadFault>
    ensures reads { (next : ExprTree → ℕ → Plan) → Answers (λ x. run (next (expr_view x.0) x.1) x.2.now) (run (operand outcome room left next) tokens.now) result }
    ensures shorter { IfOk result (λ x. length x.2.now < length tokens.now) }
{
    let Some((token, rest)) = tokens.split_first() else {
        return Err(ReadFault::NotBuilt(NOWHERE));
    };
    let spot = spot_at(token.place);
    match &token.kind {
        Kind::Number(word) => Ok((Expr::Number(spot, *word), left, rest)),
        Kind::Name(name) => {
            let name = Items::from_slice(alloc, name.as_slice())?;
            Ok((Expr::Local(spot, name), left, rest))
        }
        Kind::Known(Fixed::True) => Ok((Expr::Truth(spot, true), left, rest)),
        Kind::Known(Fixed::False) => Ok((Expr::Truth(spot, false), left, rest)),
        Kind::Known(Fixed::Outcome) if outcome => Ok((Expr::Outcome(spot), left, rest)),
        Kind::Known(Fixed::Not) if room > 0 => {
            let (e, left, rest) = part!(primary(alloc, outcome, room - 1, left, rest));
            Ok((apply(alloc, spot, UnaryOperator::Not, e)?, left, rest))
        }
        Kind::Known(Fixed::Minus) if room > 0 => {
            let (e, left, rest) = part!(primary(alloc, outcome, room - 1, left, rest));
            Ok((apply(alloc, spot, UnaryOperator::Negate, e)?, left, rest))
        }
        Kind::Known(Fixed::Open) if room > 0 => {
            let (e, left, rest) = part!(level(alloc, RANKS, outcome, room - 1, left, rest));
            let (_, rest) = part!(expect(rest, Fixed::Close));
            Ok((starting_at(token.place, e), left, rest))
        }
        _ => Err(ReadFault::NotBuilt(token.place)),
    }
}

fn spot_at(place: Place) -> Spot
    ensures { result ≡ spot place }
{
    Spot {
        place,
        first: place,
    }
}

fn apply(alloc: Global, spot: Spot, operator: UnaryOperator, e: Expr) -> Result<Expr, AllocError>
    ensures { IfOk result (λ x. expr_view x ≡ unary spot operator (expr_view e)) }
{
    Ok(Expr::Unary(spot, operator, Boxed::new(alloc, e)?))
}

fn join(
    alloc: Global,
    place: Place,
    operator: Operator,
    a: Expr,
    b: Expr,
) -> Result<Expr, AllocError>
    ensures { IfOk result (λ x. expr_view x ≡ joined place operator (expr_view a) (expr_view b)) }
{
    let first = a.spot().first;
    Ok(Expr::Binary(
        Spot { place, first },
        operator,
        Boxed::new(alloc, a)?,
        Boxed::new(alloc, b)?,
    ))
}

// The expression with its first token at a parenthesis.
fn starting_at(first: Place, e: Expr) -> Expr
    ensures { expr_view result ≡ from first (expr_view e) }
{
    match e {
        Expr::Number(spot, word) => Expr::Number(begun(first, spot), word),
        Expr::Truth(spot, truth) => Expr::Truth(begun(first, spot), truth),
        Expr::Local(spot, name) => Expr::Local(begun(first, spot), name),
        Expr::Outcome(spot) => Expr::Outcome(begun(first, spot)),
        Expr::Unary(spot, operator, e) => Expr::Unary(begun(first, spot), operator, e),
        Expr::Binary(spot, operator, a, b) => Expr::Binary(begun(first, spot), operator, a, b),
    }
}

fn begun(first: Place, spot: Spot) -> Spot
    ensures { result ≡ record spot { first = first } }
{
    Spot {
        place: spot.place,
        first,
    }
}

// The operator, if it is of this rank. The rank 0 binds most.
fn operator_of_rank(rank: u32, kind: &Kind) -> Option<Operator>
    ensures { result ≡ of_rank rank (operator_at kind.now) }
{
    let operator = match kind {
        Kind::Known(mark) => operator_of(*mark)?,
        _ => return None,
    };
    if rank_of(operator) == rank {
        Some(operator)
    } else {
        None
    }
}

fn operator_of(mark: Fixed) -> Option<Operator>
    ensures { result ≡ operator_of mark }
{
    match mark {
        Fixed::Star => Some(Operator::Mul),
        Fixed::Plus => Some(Operator::Add),
        Fixed::Minus => Some(Operator::Sub),
        Fixed::Less => Some(Operator::Less),
        Fixed::LessEq => Some(Operator::LessEq),
        Fixed::Greater => Some(Operator::Greater),
        Fixed::GreaterEq => Some(Operator::GreaterEq),
        Fixed::Equal => Some(Operator::Equal),
        Fixed::NotEqual => Some(Operator::NotEqual),
        _ => None,
    }
}

fn rank_of(operator: Operator) -> u32
    ensures { result ≡ rank operator }
{
    match operator {
        Operator::Mul => 0,
        Operator::Add | Operator::Sub => 1,
        Operator::Less | Operator::LessEq | Operator::Greater | Operator::GreaterEq => 2,
        Operator::Equal | Operator::NotEqual => 3,
    }
}

// The expressions so far, and those that the separator leads to.
fn more(
    alloc: Global,
    separator: Fixed,
    outcome: bool,
    room: u32,
    so_far: Items<Expr>,
    tokens: &[Token],
) -> Result<(Items<Expr>, &[Token]), ReadFault>
    ensures reads { (next : List ExprTree → Plan) → Answers (λ x. run (next (exprs_view x.0)) x.1.now) (run (chain separator outcome room (λ es. next (exprs_view so_far ++ es))) tokens.now) result }
    ensures shorter { IfOk result (λ x. length x.1.now ≤ length tokens.now) }
{
    let mut found = so_far;
    let mut rest = tokens;
    while let Some((token, behind)) = rest.split_first() {
        if !is(separator, &token.kind) {
            return Ok((found, rest));
        }
        let (e, after) = part!(expression(alloc, outcome, room, behind));
        found.push(e)?;
        rest = after;
    }
    Ok((found, rest))
}

// An expression, and those that the separator leads to.
fn list_of(
    alloc: Global,
    separator: Fixed,
    outcome: bool,
    room: u32,
    tokens: &[Token],
) -> Result<(Items<Expr>, &[Token]), ReadFault>
    ensures reads { (next : List ExprTree → Plan) → Answers (λ x. run (next (exprs_view x.0)) x.1.now) (run (expr outcome room (λ e. chain separator outcome room (λ es. next (e ∷ es)))) tokens.now) result }
    ensures shorter { IfOk result (λ x. length x.1.now < length tokens.now) }
{
    let (e, rest) = part!(expression(alloc, outcome, room, tokens));
    let found = one(alloc, e)?;
    more(alloc, separator, outcome, room, found, rest)
}

fn one(alloc: Global, e: Expr) -> Result<Items<Expr>, AllocError>
    ensures { IfOk result (λ x. exprs_view x ≡ expr_view e ∷ []) }
{
    let mut found = Items::new(alloc);
    found.push(e)?;
    Ok(found)
}

// What stands between the parentheses of a call, and the closing one.
fn arguments_of(
    alloc: Global,
    room: u32,
    tokens: &[Token],
) -> Result<(Items<Expr>, &[Token]), ReadFault>
    ensures reads { (next : List ExprTree → Plan) → Answers (λ x. run (next (exprs_view x.0)) x.1.now) (run (arguments room next) tokens.now) result }
    ensures shorter { IfOk result (λ x. length x.1.now < length tokens.now) }
{
    if begins(Fixed::Close, tokens) {
        let (_, rest) = part!(expect(tokens, Fixed::Close));
        return Ok((Items::new(alloc), rest));
    }
    let (found, rest) = part!(list_of(alloc, Fixed::Comma, false, room, tokens));
    let (_, rest) = part!(expect(rest, Fixed::Close));
    Ok((found, rest))
}

/// A call, and the tokens behind it.
pub fn call(alloc: Global, room: u32, tokens: &[Token]) -> Result<(Call, &[Token]), ReadFault>
    ensures reads { (next : CallTree → Plan) → Answers (λ x. run (next (call_view x.0)) x.1.now) (run (whole_call room next) tokens.now) result }
    ensures shorter { IfOk result (λ x. length x.1.now < length tokens.now) }
{
    let (name, rest) = part!(identifier(alloc, tokens));
    let (_, rest) = part!(expect(rest, Fixed::Open));
    let (arguments, rest) = part!(arguments_of(alloc, room, rest));
    Ok((Call { name, arguments }, rest))
}

/// What stands behind `=`, and the tokens behind it.
pub fn right(alloc: Global, room: u32, tokens: &[Token]) -> Result<(Right, &[Token]), ReadFault>
    ensures reads { (next : RightTree → Plan) → Answers (λ x. run (next (right_view x.0)) x.1.now) (run (right_side room next) tokens.now) result }
    ensures shorter { IfOk result (λ x. length x.1.now < length tokens.now) }
{
    if begins_call(tokens) {
        let (call, rest) = part!(call(alloc, room, tokens));
        return Ok((Right::Call(call), rest));
    }
    let (e, rest) = part!(expression(alloc, false, room, tokens));
    Ok((Right::Value(e), rest))
}

// A formula, and the tokens behind it.
fn formula_of(
    alloc: Global,
    outcome: bool,
    room: u32,
    tokens: &[Token],
) -> Result<(Formula, &[Token]), ReadFault>
    ensures reads { (next : FormulaTree → Plan) → Answers (λ x. run (next (formula_view x.0)) x.1.now) (run (formula outcome room next) tokens.now) result }
    ensures shorter { IfOk result (λ x. length x.1.now < length tokens.now) }
{
    if begins(Fixed::Question, tokens) {
        let (_, rest) = part!(expect(tokens, Fixed::Question));
        let none = Items::new(alloc);
        let (conjuncts, rest) = part!(more(alloc, Fixed::And, outcome, room, none, rest));
        return Ok((
            Formula {
                imprecise: true,
                conjuncts,
            },
            rest,
        ));
    }
    let (conjuncts, rest) = part!(list_of(alloc, Fixed::And, outcome, room, tokens));
    Ok((
        Formula {
            imprecise: false,
            conjuncts,
        },
        rest,
    ))
}

/// The formula behind an annotation's word, which stands at `place`, to the end of the line;
/// and the tokens behind it.
pub fn note(
    alloc: Global,
    outcome: bool,
    room: u32,
    place: Place,
    tokens: &[Token],
) -> Result<(Note, &[Token]), ReadFault>
    ensures reads { (next : NoteTree → Plan) → Answers (λ x. run (next (note_view x.0)) x.1.now) (run (noted outcome room place next) tokens.now) result }
    ensures shorter { IfOk result (λ x. length x.1.now < length tokens.now) }
{
    let (formula, rest) = part!(formula_of(alloc, outcome, room, tokens));
    let (_, rest) = part!(expect(rest, Fixed::Semicolon));
    let (_, rest) = part!(expect(rest, Fixed::LineEnd));
    Ok((Note { place, formula }, rest))
}
