//! Functions, with their heads, contracts and bodies.
#![tactic(auto, using(crate::proofs::Failing::fails_as))]

ghost use Rattle.std.specs.Prelude.{◌≡◌, ◌≤◌, ◌<◌, ◌++◌, [], ◌∷◌, ℕ, List, map, length, IfOk, Ok};
ghost use Rattle.gc0_base.specs.declared.place.Place.{Place};
ghost use Rattle.built_text.specs.declared.tree.Typed.{Typed};
ghost use Rattle.built_text.specs.declared.tree.Named.{Named};
ghost use Rattle.built_text.specs.declared.tree.Parameter.{Parameter};
ghost use Rattle.built_text.specs.Tree.{StmtTrees, ClauseTree, FunctionTree, ProgramTree};
ghost use Rattle.built_text.specs.Views.{stmts_view, clause_view, clauses_view, function_view, program_view};
ghost use Rattle.built_text.specs.Plan.{Plan, parameter_plan, parameters_plan, more_parameters, contract, clause, body, function, program, start, is_end, run, Answers};

use crate::cursor::{NOWHERE, begins, expect, identifier, is, type_word};
use crate::expressions::note;
use crate::statements::statements;
use crate::token::{Fixed, Kind, Token};
use crate::tree::{Clause, ClauseKind, Function, Parameter, Program, ReadFault, Stmt, Typed};
use gc0_base::{Limits, Place};
use sqlite_items::Items;
use std::alloc::{AllocError, Global};

// How deep `!`, `-`, `(` and blocks may nest: in a contract, and in a function's body, which is
// a block itself.
const NESTED: u32 = Limits::NESTING;

const BODY_ROOM: u32 = NESTED - 1;

/// The functions of a program, to the end of the text.
pub fn program_of(alloc: Global, tokens: &[Token]) -> Result<Program, ReadFault>
    ensures { Answers (λ p. Ok (program_view p)) (run start tokens.now) result }
{
    let mut functions = Items::new(alloc);
    let mut rest = tokens;
    while let Some((token, behind)) = rest.split_first() {
        if is_end(&token.kind) {
            return match behind.first() {
                None => Ok(Program { functions }),
                Some(next) => Err(ReadFault::NotBuilt(next.place)),
            };
        }
        let (typed, behind) = part!(type_word(rest));
        let (function, after) = part!(function_of(alloc, typed, behind));
        functions.push(function)?;
        rest = after;
    }
    Err(ReadFault::NotBuilt(NOWHERE))
}

fn is_end(kind: &Kind) -> bool
    ensures { result ≡ is_end kind.now }
{
    matches!(kind, Kind::End)
}

// A function behind the type of its result.
fn function_of(
    alloc: Global,
    typed: Typed,
    tokens: &[Token],
) -> Result<(Function, &[Token]), ReadFault>
    ensures reads { (next : FunctionTree → Plan) → Answers (λ x. run (next (function_view x.0)) x.1.now) (run (function next typed) tokens.now) result }
    ensures shorter { IfOk result (λ x. length x.1.now < length tokens.now) }
{
    let (name, rest) = part!(identifier(alloc, tokens));
    let (_, rest) = part!(expect(rest, Fixed::Open));
    let (parameters, rest) = part!(parameters_of(alloc, rest));
    let (contract, rest) = part!(contract_of(alloc, rest));
    let (body, close, rest) = part!(body_of(alloc, rest));
    Ok((
        Function {
            typed,
            name,
            parameters,
            contract,
            body,
            close,
        },
        rest,
    ))
}

fn parameter_of(alloc: Global, tokens: &[Token]) -> Result<(Parameter, &[Token]), ReadFault>
    ensures reads { (next : Parameter → Plan) → Answers (λ x. run (next x.0) x.1.now) (run (parameter_plan next) tokens.now) result }
    ensures shorter { IfOk result (λ x. length x.1.now < length tokens.now) }
{
    let (typed, rest) = part!(type_word(tokens));
    let (name, rest) = part!(identifier(alloc, rest));
    Ok((Parameter { typed, name }, rest))
}

// What stands between the parentheses of a function's head, and the closing one.
fn parameters_of(alloc: Global, tokens: &[Token]) -> Result<(Items<Parameter>, &[Token]), ReadFault>
    ensures reads { (next : List Parameter → Plan) → Answers (λ x. run (next x.0) x.1.now) (run (parameters_plan next) tokens.now) result }
    ensures shorter { IfOk result (λ x. length x.1.now < length tokens.now) }
{
    if begins(Fixed::Close, tokens) {
        let (_, rest) = part!(expect(tokens, Fixed::Close));
        return Ok((Items::new(alloc), rest));
    }
    let (parameter, rest) = part!(parameter_of(alloc, tokens));
    let found = one(alloc, parameter)?;
    parameters_behind(alloc, found, rest)
}

fn one(alloc: Global, parameter: Parameter) -> Result<Items<Parameter>, AllocError>
    ensures { IfOk result (λ x. x ≡ parameter ∷ []) }
{
    let mut found = Items::new(alloc);
    found.push(parameter)?;
    Ok(found)
}

// The parameters so far, those behind commas, and the closing parenthesis.
fn parameters_behind(
    alloc: Global,
    so_far: Items<Parameter>,
    tokens: &[Token],
) -> Result<(Items<Parameter>, &[Token]), ReadFault>
    ensures reads { (next : List Parameter → Plan) → Answers (λ x. run (next x.0) x.1.now) (run (more_parameters (λ ps. next (so_far ++ ps))) tokens.now) result }
    ensures shorter { IfOk result (λ x. length x.1.now < length tokens.now) }
{
    let mut found = so_far;
    let mut rest = tokens;
    while let Some((token, behind)) = rest.split_first() {
        if is(Fixed::Close, &token.kind) {
            return Ok((found, behind));
        }
        if !is(Fixed::Comma, &token.kind) {
            return Err(ReadFault::NotBuilt(token.place));
        }
        let (parameter, after) = part!(parameter_of(alloc, behind));
        found.push(parameter)?;
        rest = after;
    }
    Err(ReadFault::NotBuilt(NOWHERE))
}

// The clauses of a contract.
fn contract_of(alloc: Global, tokens: &[Token]) -> Result<(Items<Clause>, &[Token]), ReadFault>
    ensures reads { (next : List ClauseTree → Plan) → Answers (λ x. run (next (clauses_view x.0)) x.1.now) (run (contract next) tokens.now) result }
    ensures shorter { IfOk result (λ x. length x.1.now ≤ length tokens.now) }
{
    let mut found = Items::new(alloc);
    let mut rest = tokens;
    while let Some((token, behind)) = rest.split_first() {
        if !is(Fixed::Annotation, &token.kind) {
            break;
        }
        let (clause, after) = part!(clause_of(alloc, behind));
        found.push(clause)?;
        rest = after;
    }
    Ok((found, rest))
}

// A clause behind its `//@`. `\result` may stand in an `ensures`.
fn clause_of(alloc: Global, tokens: &[Token]) -> Result<(Clause, &[Token]), ReadFault>
    ensures reads { (next : ClauseTree → Plan) → Answers (λ x. run (next (clause_view x.0)) x.1.now) (run (clause next) tokens.now) result }
    ensures shorter { IfOk result (λ x. length x.1.now < length tokens.now) }
{
    if begins(Fixed::Requires, tokens) {
        let (place, rest) = part!(expect(tokens, Fixed::Requires));
        let (note, rest) = part!(note(alloc, false, NESTED, place, rest));
        return Ok((
            Clause {
                kind: ClauseKind::Requires,
                note,
            },
            rest,
        ));
    }
    let (place, rest) = part!(expect(tokens, Fixed::Ensures));
    let (note, rest) = part!(note(alloc, true, NESTED, place, rest));
    Ok((
        Clause {
            kind: ClauseKind::Ensures,
            note,
        },
        rest,
    ))
}

// A block whose last statement is a `return`, and the place of its closing brace.
fn body_of(alloc: Global, tokens: &[Token]) -> Result<(Items<Stmt>, Place, &[Token]), ReadFault>
    ensures reads { (next : StmtTrees → Place → Plan) → Answers (λ x. run (next (stmts_view x.0) x.1) x.2.now) (run (body next) tokens.now) result }
    ensures shorter { IfOk result (λ x. length x.2.now < length tokens.now) }
{
    let (_, rest) = part!(expect(tokens, Fixed::OpenBrace));
    statements(alloc, BODY_ROOM, false, rest)
}
