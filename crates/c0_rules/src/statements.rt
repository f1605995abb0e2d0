//! The violations in statements.

#![tactic(auto, using(c0_value_rules::specs::Least::least_both))]

ghost use Rattle.std.specs.Prelude.{◌≡◌, ◌++◌, fold, map, not, is_some, Some, None, IfOk, OnOk, if◌then◌else◌, [], true, false};
ghost use Rattle.std.specs.Option.{option_map};
ghost use Rattle.parsed_tree.specs.Tree.{spot_of};
ghost use Rattle.parsed_tree.specs.Views.{expr_view, value_view, simple_view, invariants_view, stmt_view, stmts_view, stmts_in};
ghost use Rattle.c0_value_rules.specs.declared.violation.Rule.TheVariants.{Twice, WrongType};
ghost use Rattle.c0_value_rules.specs.Violations.{earlier, unless};
ghost use Rattle.c0_names.specs.Names.{last_place};
ghost use Rattle.c0_names.specs.Tables.{value_type};
ghost use Rattle.c0_names.specs.Types.{bool, is_int, is_void, fits};
ghost use Rattle.c0_value_rules.specs.Scopes.{standing_of, held_type, read_type, scope_with, closed, ended, joined};
ghost use Rattle.c0_rules.specs.Behind.{target_behind, simple_behind, part_behind, stmt_behind, stmts_behind};
ghost use Rattle.c0_value_rules.specs.Expressions.{type_here, local_violations, value_violations};
ghost use Rattle.c0_rules.specs.Statements.{held_violations, declared_violations, right_violations, standing_violations, local_target, target_violations, local_target_type, target_type, suits, assigned_violations, simple_violations, part_violations, returned_violations, return_violations, stmt_violations, stmts_violations};
ghost use Rattle.c0_value_rules.specs.Formulas.{invariants_violations};

use c0_names::{BOOL, INT, Tables, ValueType};
use c0_value_rules::{
    Flow, Rule, Scope, Standing, Violation, expression, invariants, joined, local, notes, report,
    report_unless, require, value,
};
use gc0_base::Place;
use parsed_tree::{Expr, Invariants, Named, Simple, Stmt, TypeName};
use sqlite_items::Boxed;
use std::alloc::{AllocError, Global};

/// A local, a field, a parameter and a result hold an int, a truth or a pointer to a struct.
pub fn held(
    tables: &Tables<'_>,
    typed: &TypeName,
    least: &mut Option<Violation>,
) -> Result<ValueType, AllocError>
    ensures typed { IfOk result (λ v. v ≡ value_type tables.now typed.now) }
    ensures least { IfOk result (λ v. least.new ≡ fold earlier least.old (held_violations tables.now typed.now)) }
{
    let holds = tables.value_type(typed)?;
    report_unless(least, holds.is_held(), Rule::WrongType, typed.place);
    Ok(holds)
}

/// A declared name is not that of a local in scope.
pub fn declared(scope: &Scope<'_>, name: &Named, least: &mut Option<Violation>)
    ensures { least.new ≡ fold earlier least.old (declared_violations scope.now name.now) }
{
    let is_new = !scope.has(name.name.as_slice());
    report_unless(least, is_new, Rule::Twice, name.place);
}

// The value of a declaration.
fn right(
    tables: &Tables<'_>,
    scope: &Scope<'_>,
    due: ValueType,
    value: &Option<(Place, Expr)>,
    least: &mut Option<Violation>,
) -> Result<(), AllocError>
    ensures { OnOk result (least.new ≡ fold earlier least.old (right_violations tables.now scope.now due (option_map value_view value.now))) }
{
    match value {
        Some((place, e)) => {
            let given = expression(tables, scope, None, e, least)?;
            require(*place, due, given, least);
            Ok(())
        }
        None => Ok(()),
    }
}

// A declaration; its local comes into scope.
fn declaration<'a>(
    tables: &Tables<'_>,
    scope: &mut Scope<'a>,
    typed: &TypeName,
    name: &'a Named,
    value: &Option<(Place, Expr)>,
    least: &mut Option<Violation>,
) -> Result<(), AllocError>
    ensures least { OnOk result (least.new ≡ fold earlier least.old (held_violations tables.now typed.now ++ (declared_violations scope.old name.now ++ right_violations tables.now scope.old (value_type tables.now typed.now) (option_map value_view value.now)))) }
    ensures scope { OnOk result (scope.new ≡ scope_with scope.old name.now.name (record { holds = value_type tables.now typed.now; fixed = false }) (is_some (option_map value_view value.now))) }
{
    let holds = held(tables, typed, least)?;
    declared(scope, name, least);
    right(tables, scope, holds, value, least)?;
    let standing = Standing {
        holds,
        fixed: false,
    };
    scope.declare(name.name.as_slice(), standing, value.is_some())
}

// An assigned name is that of a local, and of no parameter that `ensures` names.
fn standing(place: Place, standing: Option<Standing>, least: &mut Option<Violation>)
    ensures { least.new ≡ fold earlier least.old (standing_violations place standing) }
{
    match standing {
        Some(standing) => {
            report_unless(least, !standing.fixed, Rule::AssignedInEnsures, place);
        }
        None => report(least, Rule::Unknown, place),
    }
}

// The type of an assigned local. An operator of its own reads it too.
fn local_target(
    scope: &Scope<'_>,
    reads: bool,
    place: Place,
    name: &[u8],
    least: &mut Option<Violation>,
) -> Option<ValueType>
    ensures typed { result ≡ local_target_type scope.now reads name.now }
    ensures least { least.new ≡ fold earlier least.old (local_target scope.now reads place name.now) }
{
    standing(place, scope.standing(name), least);
    if reads {
        local(scope, place, name, least)
    } else {
        scope.held_type(name)
    }
}

fn target(
    tables: &Tables<'_>,
    scope: &Scope<'_>,
    reads: bool,
    e: &Expr,
    least: &mut Option<Violation>,
) -> Result<Option<ValueType>, AllocError>
    ensures typed { IfOk result (λ v. v ≡ target_type tables.now scope.now reads (expr_view e.now)) }
    ensures least { IfOk result (λ v. least.new ≡ fold earlier least.old (target_violations tables.now scope.now reads (expr_view e.now))) }
{
    match e {
        Expr::Local(spot, name) => {
            Ok(local_target(scope, reads, spot.place, name.as_slice(), least))
        }
        _ => expression(tables, scope, None, e, least),
    }
}

// The scope behind an assignment.
fn assign(scope: &mut Scope<'_>, e: &Expr)
    ensures { scope.new ≡ target_behind scope.old (expr_view e.now) }
{
    if let Expr::Local(_, name) = e {
        scope.assign(name.as_slice());
    }
}

fn suits(reads: bool, due: ValueType, given: ValueType) -> bool
    ensures { result ≡ suits reads due given }
{
    if reads {
        due.is_int() && given.is_int()
    } else {
        due.fits(given)
    }
}

fn assigned(
    place: Place,
    reads: bool,
    due: Option<ValueType>,
    given: Option<ValueType>,
    least: &mut Option<Violation>,
)
    ensures { least.new ≡ fold earlier least.old (assigned_violations place reads due given) }
{
    if let Some(due) = due {
        if let Some(given) = given {
            report_unless(least, suits(reads, due, given), Rule::WrongType, place);
        }
    }
}

fn simple<'a>(
    tables: &Tables<'_>,
    scope: &mut Scope<'a>,
    simple: &'a Simple,
    least: &mut Option<Violation>,
) -> Result<(), AllocError>
    ensures least { OnOk result (least.new ≡ fold earlier least.old (simple_violations tables.now scope.old (simple_view simple.now))) }
    ensures scope { OnOk result (scope.new ≡ simple_behind tables.now scope.old (simple_view simple.now)) }
{
    match simple {
        Simple::Declare { typed, name, value } => {
            declaration(tables, scope, typed, name, value, least)
        }
        Simple::Assign {
            target: e,
            place,
            operator,
            value,
        } => {
            let reads = operator.is_some();
            let due = target(tables, scope, reads, e, least)?;
            let given = expression(tables, scope, None, value, least)?;
            assigned(*place, reads, due, given, least);
            assign(scope, e);
            Ok(())
        }
        Simple::Step {
            target: e,
            place,
            operator: _,
        } => {
            let given = target(tables, scope, true, e, least)?;
            require(*place, INT, given, least);
            assign(scope, e);
            Ok(())
        }
        Simple::Plain(e) => {
            expression(tables, scope, None, e, least)?;
            Ok(())
        }
    }
}

fn part<'a>(
    tables: &Tables<'_>,
    scope: &mut Scope<'a>,
    part: &'a Option<Boxed<Simple>>,
    least: &mut Option<Violation>,
) -> Result<(), AllocError>
    ensures least { OnOk result (least.new ≡ fold earlier least.old (part_violations tables.now scope.old (option_map simple_view part.now))) }
    ensures scope { OnOk result (scope.new ≡ part_behind tables.now scope.old (option_map simple_view part.now)) }
{
    match part {
        Some(part) => simple(tables, scope, part.get(), least),
        None => Ok(()),
    }
}

fn returned(
    place: Place,
    first: Place,
    due: ValueType,
    given: Option<ValueType>,
    least: &mut Option<Violation>,
)
    ensures { least.new ≡ fold earlier least.old (returned_violations place first due given) }
{
    if let Some(given) = given {
        if due.is_void() {
            report(least, Rule::WrongType, place);
        } else {
            report_unless(least, due.fits(given), Rule::WrongType, first);
        }
    }
}

fn return_statement(
    tables: &Tables<'_>,
    scope: &Scope<'_>,
    place: Place,
    due: ValueType,
    value: &Option<Expr>,
    least: &mut Option<Violation>,
) -> Result<(), AllocError>
    ensures { OnOk result (least.new ≡ fold earlier least.old (return_violations tables.now scope.now place due (option_map expr_view value.now))) }
{
    match value {
        Some(e) => {
            let given = expression(tables, scope, None, e, least)?;
            returned(place, e.spot().first, due, given, least);
        }
        None => report_unless(least, due.is_void(), Rule::WrongType, place),
    }
    Ok(())
}

// A `return` that was reached: no path leads on.
fn returning(
    tables: &Tables<'_>,
    scope: &mut Scope<'_>,
    place: Place,
    due: ValueType,
    value: &Option<Expr>,
    least: &mut Option<Violation>,
) -> Result<(), AllocError>
    ensures least { OnOk result (least.new ≡ fold earlier least.old (return_violations tables.now scope.old place due (option_map expr_view value.now))) }
    ensures scope { OnOk result (scope.new ≡ ended scope.old) }
{
    return_statement(tables, scope, place, due, value, least)?;
    scope.end();
    Ok(())
}

// The last part of a loop. Its locals end with it.
fn last_part<'a>(
    tables: &Tables<'_>,
    scope: &mut Scope<'a>,
    last: &'a Option<Boxed<Simple>>,
    least: &mut Option<Violation>,
) -> Result<(), AllocError>
    ensures least { OnOk result (least.new ≡ fold earlier least.old (part_violations tables.now scope.old (option_map simple_view last.now))) }
    ensures scope { OnOk result (scope.new ≡ closed scope.old (part_behind tables.now scope.old (option_map simple_view last.now))) }
{
    let outer = scope.depth();
    part(tables, scope, last, least)?;
    scope.close(outer)
}

// The condition and the invariants of a loop.
fn loop_head(
    tables: &Tables<'_>,
    scope: &Scope<'_>,
    test: &Expr,
    clauses: &[Invariants],
    least: &mut Option<Violation>,
) -> Result<(), AllocError>
    ensures { OnOk result (least.new ≡ fold earlier least.old (value_violations tables.now scope.now None bool (expr_view test.now) ++ invariants_violations tables.now scope.now (map invariants_view clauses.now))) }
{
    value(tables, scope, None, BOOL, test, least)?;
    invariants(tables, scope, clauses, least)
}

// Where there is no `else`.
#[tactic(auto, using(crate::proofs::Kept::closed_itself))]
fn skipped(alloc: Global, scope: &Scope<'_>) -> Result<Flow, AllocError>
    ensures { IfOk result (λ f. f ≡ (closed scope.now scope.now).flow) }
{
    scope.flow.copied(alloc)
}

// Two paths meet.
fn meet(alloc: Global, scope: &mut Scope<'_>, met: Flow, other: Flow) -> Result<(), AllocError>
    ensures { OnOk result (scope.new ≡ record scope.old { flow = joined met other }) }
{
    let flow = joined(alloc, met, other)?;
    let _ = scope.turn(flow);
    Ok(())
}

#[cycle(statement)]
fn statement<'a>(
    alloc: Global,
    tables: &Tables<'_>,
    due: ValueType,
    scope: &mut Scope<'a>,
    statement: &'a Stmt,
    least: &mut Option<Violation>,
) -> Result<(), AllocError>
    ensures least { OnOk result (least.new ≡ fold earlier least.old (stmt_violations tables.now due scope.old (stmt_view statement.now))) }
    ensures scope { OnOk result (scope.new ≡ stmt_behind tables.now scope.old (stmt_view statement.now)) }
{
    match statement {
        Stmt::Simple(s) => simple(tables, scope, s, least),
        Stmt::Block { body, .. } => block(alloc, tables, due, scope, body.as_slice(), least),
        Stmt::If { test, yes, no, .. } => {
            value(tables, scope, None, BOOL, test, least)?;
            let met = apart(alloc, tables, due, scope, yes.get(), least)?;
            otherwise(alloc, tables, due, scope, no, met, least)
        }
        Stmt::While {
            test,
            invariants: clauses,
            body,
            ..
        } => {
            loop_head(tables, scope, test, clauses.as_slice(), least)?;
            once(alloc, tables, due, scope, body.get(), least)
        }
        Stmt::For {
            first,
            test,
            last,
            invariants: clauses,
            body,
            ..
        } => {
            let outer = scope.depth();
            part(tables, scope, first, least)?;
            loop_head(tables, scope, test, clauses.as_slice(), least)?;
            turns(alloc, tables, due, scope, body.get(), last, least)?;
            scope.close(outer)
        }
        Stmt::Return { place, value } => returning(tables, scope, *place, due, value, least),
        Stmt::Assert { test, .. } => value(tables, scope, None, BOOL, test, least),
        Stmt::Error { .. } => {
            scope.end();
            Ok(())
        }
        Stmt::Notes { clauses, .. } => notes(tables, scope, clauses.as_slice(), least),
    }
}

// A block. Its locals end with it.
#[cycle(statement)]
fn block<'a>(
    alloc: Global,
    tables: &Tables<'_>,
    due: ValueType,
    scope: &mut Scope<'a>,
    body: &'a [Stmt],
    least: &mut Option<Violation>,
) -> Result<(), AllocError>
    ensures least { OnOk result (least.new ≡ fold earlier least.old (stmts_violations tables.now due scope.old (stmts_view body.now))) }
    ensures scope { OnOk result (scope.new ≡ closed scope.old (stmts_behind tables.now scope.old (stmts_view body.now))) }
{
    let outer = scope.depth();
    statements(alloc, tables, due, scope, body, least)?;
    scope.close(outer)
}

// The `else` of an `if`, whose other path is given: where the two meet.
#[cycle(statement)]
fn otherwise<'a>(
    alloc: Global,
    tables: &Tables<'_>,
    due: ValueType,
    scope: &mut Scope<'a>,
    no: &'a Option<Boxed<Stmt>>,
    met: Flow,
    least: &mut Option<Violation>,
) -> Result<(), AllocError>
    ensures least { OnOk result (least.new ≡ fold earlier least.old (stmts_violations tables.now due scope.old (stmts_in (option_map stmt_view no.now)))) }
    ensures scope { OnOk result (scope.new ≡ record scope.old { flow = joined met (closed scope.old (stmts_behind tables.now scope.old (stmts_in (option_map stmt_view no.now)))).flow }) }
{
    match no {
        Some(no) => {
            let other = apart(alloc, tables, due, scope, no.get(), least)?;
            meet(alloc, scope, met, other)
        }
        None => {
            let other = skipped(alloc, scope)?;
            meet(alloc, scope, met, other)
        }
    }
}

// A statement whose locals end with it.
#[cycle(statement)]
fn enclosed<'a>(
    alloc: Global,
    tables: &Tables<'_>,
    due: ValueType,
    scope: &mut Scope<'a>,
    part: &'a Stmt,
    least: &mut Option<Violation>,
) -> Result<(), AllocError>
    ensures least { OnOk result (least.new ≡ fold earlier least.old (stmt_violations tables.now due scope.old (stmt_view part.now))) }
    ensures scope { OnOk result (scope.new ≡ closed scope.old (stmt_behind tables.now scope.old (stmt_view part.now))) }
{
    let outer = scope.depth();
    statement(alloc, tables, due, scope, part, least)?;
    scope.close(outer)
}

// A statement apart: what is known behind it of the paths, and the scope as it was before.
#[cycle(statement)]
fn apart<'a>(
    alloc: Global,
    tables: &Tables<'_>,
    due: ValueType,
    scope: &mut Scope<'a>,
    part: &'a Stmt,
    least: &mut Option<Violation>,
) -> Result<Flow, AllocError>
    ensures flow { IfOk result (λ f. f ≡ (closed scope.old (stmt_behind tables.now scope.old (stmt_view part.now))).flow) }
    ensures least { IfOk result (λ f. least.new ≡ fold earlier least.old (stmt_violations tables.now due scope.old (stmt_view part.now))) }
    ensures scope { IfOk result (λ f. scope.new ≡ scope.old) }
{
    let before = scope.flow.copied(alloc)?;
    enclosed(alloc, tables, due, scope, part, least)?;
    Ok(scope.turn(before))
}

// The body of a loop. What it assigns counts for nothing behind the loop.
#[cycle(statement)]
fn once<'a>(
    alloc: Global,
    tables: &Tables<'_>,
    due: ValueType,
    scope: &mut Scope<'a>,
    body: &'a Stmt,
    least: &mut Option<Violation>,
) -> Result<(), AllocError>
    ensures least { OnOk result (least.new ≡ fold earlier least.old (stmt_violations tables.now due scope.old (stmt_view body.now))) }
    ensures scope { OnOk result (scope.new ≡ scope.old) }
{
    let _ = apart(alloc, tables, due, scope, body, least)?;
    Ok(())
}

// The body of a loop and its last part, likewise.
#[cycle(statement)]
fn turns<'a>(
    alloc: Global,
    tables: &Tables<'_>,
    due: ValueType,
    scope: &mut Scope<'a>,
    body: &'a Stmt,
    last: &'a Option<Boxed<Simple>>,
    least: &mut Option<Violation>,
) -> Result<(), AllocError>
    ensures least { OnOk result (least.new ≡ fold earlier least.old (stmt_violations tables.now due scope.old (stmt_view body.now) ++ part_violations tables.now (closed scope.old (stmt_behind tables.now scope.old (stmt_view body.now))) (option_map simple_view last.now))) }
    ensures scope { OnOk result (scope.new ≡ scope.old) }
{
    let entered = scope.flow.copied(alloc)?;
    enclosed(alloc, tables, due, scope, body, least)?;
    last_part(tables, scope, last, least)?;
    let _ = scope.turn(entered);
    Ok(())
}

/// The statements of a block.
#[cycle(statement)]
pub fn statements<'a>(
    alloc: Global,
    tables: &Tables<'_>,
    due: ValueType,
    scope: &mut Scope<'a>,
    parts: &'a [Stmt],
    least: &mut Option<Violation>,
) -> Result<(), AllocError>
    ensures least { OnOk result (least.new ≡ fold earlier least.old (stmts_violations tables.now due scope.old (stmts_view parts.now))) }
    ensures scope { OnOk result (scope.new ≡ stmts_behind tables.now scope.old (stmts_view parts.now)) }
{
    for part in parts {
        statement(alloc, tables, due, scope, part, least)?;
    }
    Ok(())
}
