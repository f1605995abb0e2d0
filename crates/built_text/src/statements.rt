//! Statements.
#![tactic(auto, using(crate::proofs::Failing::fails_as))]

ghost use Rattle.std.specs.Prelude.{◌≡◌, true, cond, ◌≤◌, ◌<◌, ◌+◌, ◌*◌, ◌-◌, ◌∷◌, ◌++◌, ℕ, List, length, IfOk};
ghost use Rattle.gc0_base.specs.declared.place.Place.{Place};
ghost use Rattle.built_text.specs.declared.tree.Typed.{Typed};
ghost use Rattle.built_text.specs.Tree.{ExprTree, RightTree, NoteTree, StmtTree, StmtTrees, declare, assign, call_stmt, print_stmt, return_stmt, if_stmt, while_stmt, assert_stmt};
ghost use Rattle.built_text.specs.Grammar.{is_return};
ghost use Rattle.built_text.specs.Views.{expr_view, call_view, right_view, note_view, notes_view, stmt_view, stmts_view};
ghost use Rattle.built_text.specs.Plan.{Plan, assigned, condition, notes, lines, block, otherwise, declared, printed, returned, asserted, conditional, looped, line_run, starts_name, invariant, run, Answers};

use crate::cursor::{NOWHERE, begins, begins_call, expect, identifier, is};
use crate::expressions::{call, expression, note, right};
use crate::token::{Fixed, Kind, Token};
use crate::tree::{Call, Expr, Named, Note, ReadFault, Right, Shape, Stmt, Typed};
use gc0_base::Place;
use sqlite_items::Items;
use std::alloc::Global;

/// Statements in which blocks nest at most `room` deep, and the closing brace behind them with
/// its place. The brace may come behind any statement, or only behind a `return`.
#[cycle(statement)]
pub fn statements(
    alloc: Global,
    room: u32,
    any: bool,
    tokens: &[Token],
) -> Result<(Items<Stmt>, Place, &[Token]), ReadFault>
    ensures reads { (next : StmtTrees → Place → Plan) → Answers (λ x. run (next (stmts_view x.0) x.1) x.2.now) (run (lines room any any next) tokens.now) result }
    ensures shorter { IfOk result (λ x. length x.2.now < length tokens.now) }
{
    let mut found = Items::new(alloc);
    let mut closes = any;
    let mut rest = tokens;
    while let Some((token, behind)) = rest.split_first() {
        if is(Fixed::CloseBrace, &token.kind) {
            if closes {
                return Ok((found, token.place, behind));
            }
            return Err(ReadFault::NotBuilt(token.place));
        }
        let (statement, after) = part!(statement(alloc, room, rest));
        closes = may_close(any, &statement);
        found.push(statement)?;
        rest = after;
    }
    Err(ReadFault::NotBuilt(NOWHERE))
}

// Whether the closing brace may come behind this statement.
fn may_close(any: bool, statement: &Stmt) -> bool
    ensures { result ≡ cond any true (is_return (stmt_view statement.now)) }
{
    any || is_return(statement)
}

fn is_return(statement: &Stmt) -> bool
    ensures { result ≡ is_return (stmt_view statement.now) }
{
    matches!(statement, Stmt::Return { .. })
}

// One statement, and the tokens behind it.
#[cycle(statement)]
fn statement(alloc: Global, room: u32, tokens: &[Token]) -> Result<(Stmt, &[Token]), ReadFault>
    ensures reads { (next : StmtTree → Plan) → Answers (λ x. run (next (stmt_view x.0)) x.1.now) (line_run room next tokens.now) result }
    ensures shorter { IfOk result (λ x. length x.1.now < length tokens.now) }
{
    let Some((token, rest)) = tokens.split_first() else {
        return Err(ReadFault::NotBuilt(NOWHERE));
    };
    let place = token.place;
    match &token.kind {
        Kind::Known(Fixed::Int) => {
            let shape = Shape::Int;
            declaration(alloc, room, Typed { shape, place }, rest)
        },
        Kind::Known(Fixed::Bool) => {
            let shape = Shape::Bool;
            declaration(alloc, room, Typed { shape, place }, rest)
        },
        Kind::Known(Fixed::PrintInt) => print(alloc, room, place, Shape::Int, rest),
        Kind::Known(Fixed::PrintBool) => print(alloc, room, place, Shape::Bool, rest),
        Kind::Known(Fixed::Return) => return_behind(alloc, room, place, rest),
        Kind::Known(Fixed::Annotation) => assert_behind(alloc, room, rest),
        Kind::Known(Fixed::If) if room > 0 => if_behind(alloc, room, place, rest),
        Kind::Known(Fixed::While) if room > 0 => while_behind(alloc, room, place, rest),
        Kind::Name(_) => by_name(alloc, room, tokens),
        _ => Err(ReadFault::NotBuilt(place)),
    }
}

// `=`, what is assigned and `;`, with the place of `=`.
fn assignment(
    alloc: Global,
    room: u32,
    tokens: &[Token],
) -> Result<(Place, Right, &[Token]), ReadFault>
    ensures reads { (next : Place → RightTree → Plan) → Answers (λ x. run (next x.0 (right_view x.1)) x.2.now) (run (assigned room next) tokens.now) result }
    ensures shorter { IfOk result (λ x. length x.2.now < length tokens.now) }
{
    let (equals, rest) = part!(expect(tokens, Fixed::Assign));
    let (right, rest) = part!(right(alloc, room, rest));
    let (_, rest) = part!(expect(rest, Fixed::Semicolon));
    Ok((equals, right, rest))
}

fn declaration(
    alloc: Global,
    room: u32,
    typed: Typed,
    tokens: &[Token],
) -> Result<(Stmt, &[Token]), ReadFault>
    ensures reads { (next : StmtTree → Plan) → Answers (λ x. run (next (stmt_view x.0)) x.1.now) (run (declared room next typed) tokens.now) result }
    ensures shorter { IfOk result (λ x. length x.1.now < length tokens.now) }
{
    let (name, rest) = part!(identifier(alloc, tokens));
    let (equals, right, rest) = part!(assignment(alloc, room, rest));
    Ok((declare(typed, name, equals, right), rest))
}

fn declare(typed: Typed, name: Named, equals: Place, right: Right) -> Stmt
    ensures { stmt_view result ≡ declare typed name equals (right_view right) }
{
    Stmt::Declare {
        typed,
        name,
        equals,
        right,
    }
}

// A statement that begins with a name: a call or an assignment.
fn by_name(alloc: Global, room: u32, tokens: &[Token]) -> Result<(Stmt, &[Token]), ReadFault>
    requires { starts_name tokens.now ≡ true }
    ensures reads { (next : StmtTree → Plan) → Answers (λ x. run (next (stmt_view x.0)) x.1.now) (line_run room next tokens.now) result }
    ensures shorter { IfOk result (λ x. length x.1.now < length tokens.now) }
{
    if begins_call(tokens) {
        let (call, rest) = part!(call(alloc, room, tokens));
        let (_, rest) = part!(expect(rest, Fixed::Semicolon));
        return Ok((call_statement(call), rest));
    }
    let (name, rest) = part!(identifier(alloc, tokens));
    let (equals, right, rest) = part!(assignment(alloc, room, rest));
    Ok((assign(name, equals, right), rest))
}

fn call_statement(call: Call) -> Stmt
    ensures { stmt_view result ≡ call_stmt (call_view call) }
{
    Stmt::Call(call)
}

fn assign(name: Named, equals: Place, right: Right) -> Stmt
    ensures { stmt_view result ≡ assign name equals (right_view right) }
{
    Stmt::Assign {
        name,
        equals,
        right,
    }
}

// An expression in parentheses.
fn condition_of(alloc: Global, room: u32, tokens: &[Token]) -> Result<(Expr, &[Token]), ReadFault>
    ensures reads { (next : ExprTree → Plan) → Answers (λ x. run (next (expr_view x.0)) x.1.now) (run (condition room next) tokens.now) result }
    ensures shorter { IfOk result (λ x. length x.1.now < length tokens.now) }
{
    let (_, rest) = part!(expect(tokens, Fixed::Open));
    let (e, rest) = part!(expression(alloc, false, room, rest));
    let (_, rest) = part!(expect(rest, Fixed::Close));
    Ok((e, rest))
}

fn print(
    alloc: Global,
    room: u32,
    place: Place,
    shape: Shape,
    tokens: &[Token],
) -> Result<(Stmt, &[Token]), ReadFault>
    ensures reads { (next : StmtTree → Plan) → Answers (λ x. run (next (stmt_view x.0)) x.1.now) (run (printed room next place shape) tokens.now) result }
    ensures shorter { IfOk result (λ x. length x.1.now < length tokens.now) }
{
    let (value, rest) = part!(condition_of(alloc, room, tokens));
    let (_, rest) = part!(expect(rest, Fixed::Semicolon));
    Ok((print_statement(place, shape, value), rest))
}

fn print_statement(place: Place, shape: Shape, value: Expr) -> Stmt
    ensures { stmt_view result ≡ print_stmt place shape (expr_view value) }
{
    Stmt::Print {
        place,
        shape,
        value,
    }
}

fn return_behind(
    alloc: Global,
    room: u32,
    place: Place,
    tokens: &[Token],
) -> Result<(Stmt, &[Token]), ReadFault>
    ensures reads { (next : StmtTree → Plan) → Answers (λ x. run (next (stmt_view x.0)) x.1.now) (run (returned room next place) tokens.now) result }
    ensures shorter { IfOk result (λ x. length x.1.now < length tokens.now) }
{
    let (value, rest) = part!(expression(alloc, false, room, tokens));
    let (_, rest) = part!(expect(rest, Fixed::Semicolon));
    Ok((return_statement(place, value), rest))
}

fn return_statement(place: Place, value: Expr) -> Stmt
    ensures { stmt_view result ≡ return_stmt place (expr_view value) }
{
    Stmt::Return { place, value }
}

fn assert_behind(alloc: Global, room: u32, tokens: &[Token]) -> Result<(Stmt, &[Token]), ReadFault>
    ensures reads { (next : StmtTree → Plan) → Answers (λ x. run (next (stmt_view x.0)) x.1.now) (run (asserted room next) tokens.now) result }
    ensures shorter { IfOk result (λ x. length x.1.now < length tokens.now) }
{
    let (place, rest) = part!(expect(tokens, Fixed::Assert));
    let (note, rest) = part!(note(alloc, false, room, place, rest));
    Ok((assert_statement(note), rest))
}

fn assert_statement(note: Note) -> Stmt
    ensures { stmt_view result ≡ assert_stmt (note_view note) }
{
    Stmt::Assert(note)
}

#[cycle(statement)]
fn if_behind(
    alloc: Global,
    room: u32,
    place: Place,
    tokens: &[Token],
) -> Result<(Stmt, &[Token]), ReadFault>
    requires { 0 < room }
    ensures reads { (next : StmtTree → Plan) → Answers (λ x. run (next (stmt_view x.0)) x.1.now) (run (conditional room (room - 1) next place) tokens.now) result }
    ensures shorter { IfOk result (λ x. length x.1.now < length tokens.now) }
{
    let (test, rest) = part!(condition_of(alloc, room, tokens));
    let (body, rest) = part!(block_of(alloc, room - 1, rest));
    let (otherwise, rest) = part!(otherwise_of(alloc, room - 1, rest));
    Ok((if_statement(place, test, body, otherwise), rest))
}

fn if_statement(place: Place, test: Expr, body: Items<Stmt>, otherwise: Items<Stmt>) -> Stmt
    ensures { stmt_view result ≡ if_stmt place (expr_view test) (stmts_view body) (stmts_view otherwise) }
{
    Stmt::If {
        place,
        test,
        body,
        otherwise,
    }
}

#[cycle(statement)]
fn while_behind(
    alloc: Global,
    room: u32,
    place: Place,
    tokens: &[Token],
) -> Result<(Stmt, &[Token]), ReadFault>
    requires { 0 < room }
    ensures reads { (next : StmtTree → Plan) → Answers (λ x. run (next (stmt_view x.0)) x.1.now) (run (looped room (room - 1) next place) tokens.now) result }
    ensures shorter { IfOk result (λ x. length x.1.now < length tokens.now) }
{
    let (test, rest) = part!(condition_of(alloc, room, tokens));
    let (invariants, rest) = part!(invariants_of(alloc, room, rest));
    let (body, rest) = part!(block_of(alloc, room - 1, rest));
    Ok((while_statement(place, test, invariants, body), rest))
}

fn while_statement(place: Place, test: Expr, invariants: Items<Note>, body: Items<Stmt>) -> Stmt
    ensures { stmt_view result ≡ while_stmt place (expr_view test) (notes_view invariants) (stmts_view body) }
{
    Stmt::While {
        place,
        test,
        invariants,
        body,
    }
}

// The `loop_invariant`s of a loop.
fn invariants_of(
    alloc: Global,
    room: u32,
    tokens: &[Token],
) -> Result<(Items<Note>, &[Token]), ReadFault>
    ensures reads { (next : List NoteTree → Plan) → Answers (λ x. run (next (notes_view x.0)) x.1.now) (run (notes room next) tokens.now) result }
    ensures shorter { IfOk result (λ x. length x.1.now ≤ length tokens.now) }
{
    let mut found = Items::new(alloc);
    let mut rest = tokens;
    while let Some((token, behind)) = rest.split_first() {
        if !is(Fixed::Annotation, &token.kind) {
            break;
        }
        let (note, after) = part!(invariant_of(alloc, room, behind));
        found.push(note)?;
        rest = after;
    }
    Ok((found, rest))
}

// An invariant behind its `//@`.
fn invariant_of(alloc: Global, room: u32, tokens: &[Token]) -> Result<(Note, &[Token]), ReadFault>
    ensures reads { (next : NoteTree → Plan) → Answers (λ x. run (next (note_view x.0)) x.1.now) (run (invariant room next) tokens.now) result }
    ensures shorter { IfOk result (λ x. length x.1.now < length tokens.now) }
{
    let (place, rest) = part!(expect(tokens, Fixed::LoopInvariant));
    note(alloc, false, room, place, rest)
}

#[cycle(statement)]
fn block_of(
    alloc: Global,
    room: u32,
    tokens: &[Token],
) -> Result<(Items<Stmt>, &[Token]), ReadFault>
    ensures reads { (next : StmtTrees → Plan) → Answers (λ x. run (next (stmts_view x.0)) x.1.now) (run (block room next) tokens.now) result }
    ensures shorter { IfOk result (λ x. length x.1.now < length tokens.now) }
{
    let (_, rest) = part!(expect(tokens, Fixed::OpenBrace));
    let (found, _, rest) = part!(statements(alloc, room, true, rest));
    Ok((found, rest))
}

// `else` and a block, or nothing.
#[cycle(statement)]
fn otherwise_of(
    alloc: Global,
    room: u32,
    tokens: &[Token],
) -> Result<(Items<Stmt>, &[Token]), ReadFault>
    ensures reads { (next : StmtTrees → Plan) → Answers (λ x. run (next (stmts_view x.0)) x.1.now) (run (otherwise room next) tokens.now) result }
    ensures shorter { IfOk result (λ x. length x.1.now ≤ length tokens.now) }
{
    if !begins(Fixed::Else, tokens) {
        return Ok((Items::new(alloc), tokens));
    }
    let (_, rest) = part!(expect(tokens, Fixed::Else));
    block_of(alloc, room, rest)
}
