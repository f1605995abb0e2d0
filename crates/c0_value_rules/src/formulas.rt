//! The violations in formulas.

#![tactic(auto, using(crate::specs::Least::least_both))]

ghost use Rattle.std.specs.Prelude.{◌≡◌, fold, map, OnOk};
ghost use Rattle.std.specs.Option.{option_map, option_copied};
ghost use Rattle.parsed_tree.specs.Views.{expr_view, exprs_view, formula_view, instance_view, form_view, note_view, invariant_view, invariants_view};
ghost use Rattle.c0_value_rules.specs.Violations.{earlier};
ghost use Rattle.c0_names.specs.Tables.{signature_in};
ghost use Rattle.c0_value_rules.specs.Expressions.{value_violations, call_violations};
ghost use Rattle.c0_value_rules.specs.Formulas.{is_both, is_either, operand_condition, conditions_violations, parts_violations, optional_parts, formula_violations, instance_violations, form_violations, notes_violations, clauses_violations, invariants_violations};

use crate::expressions::{defined_call, expression, require, value};
use crate::scope::Scope;
use crate::violation::Violation;
use c0_names::{BOOL, Tables, ValueType};
use gc0_base::Place;
use parsed_tree::{Expr, Formula, Instance, Invariant, Invariants, Note, NoteForm, Operator};
use std::alloc::AllocError;

// A condition of a choice, which is an operand at this place.
fn condition(
    tables: &Tables<'_>,
    scope: &Scope<'_>,
    outcome: Option<ValueType>,
    place: Place,
    e: &Expr,
    least: &mut Option<Violation>,
) -> Result<(), AllocError>
    ensures { OnOk result (least.new ≡ fold earlier least.old (operand_condition tables.now scope.now outcome place (expr_view e.now))) }
{
    let given = expression(tables, scope, outcome, e, least)?;
    require(place, BOOL, given, least);
    Ok(())
}

// The operands of `||` before the last.
fn conditions(
    tables: &Tables<'_>,
    scope: &Scope<'_>,
    outcome: Option<ValueType>,
    place: Place,
    e: &Expr,
    least: &mut Option<Violation>,
) -> Result<(), AllocError>
    ensures { OnOk result (least.new ≡ fold earlier least.old (conditions_violations tables.now scope.now outcome place (expr_view e.now))) }
{
    match e {
        Expr::Binary(spot, Operator::Either, x, y) => {
            conditions(tables, scope, outcome, spot.place, x.get(), least)?;
            conditions(tables, scope, outcome, place, y.get(), least)
        }
        _ => condition(tables, scope, outcome, place, e, least),
    }
}

fn is_both(operator: Operator) -> bool
    ensures { result ≡ is_both operator }
{
    matches!(operator, Operator::Both)
}

fn is_either(operator: Operator) -> bool
    ensures { result ≡ is_either operator }
{
    matches!(operator, Operator::Either)
}

// An instance of a predicate that is defined or not.
fn predicate_call(
    tables: &Tables<'_>,
    scope: &Scope<'_>,
    outcome: Option<ValueType>,
    place: Place,
    name: &[u8],
    given: &[Expr],
    least: &mut Option<Violation>,
) -> Result<(), AllocError>
    ensures { OnOk result (least.new ≡ fold earlier least.old (call_violations tables.now scope.now outcome place (signature_in tables.now.predicates name.now) (exprs_view given.now))) }
{
    let found = tables.predicates.get(name);
    defined_call(tables, scope, outcome, place, found, given, least)?;
    Ok(())
}

/// The conjuncts of a formula.
pub fn parts(
    tables: &Tables<'_>,
    scope: &Scope<'_>,
    outcome: Option<ValueType>,
    e: &Expr,
    least: &mut Option<Violation>,
) -> Result<(), AllocError>
    ensures { OnOk result (least.new ≡ fold earlier least.old (parts_violations tables.now scope.now outcome (expr_view e.now))) }
{
    match e {
        Expr::Binary(spot, operator, x, y) => {
            if is_both(*operator) {
                parts(tables, scope, outcome, x.get(), least)?;
                parts(tables, scope, outcome, y.get(), least)
            } else if is_either(*operator) {
                conditions(tables, scope, outcome, spot.place, x.get(), least)?;
                parts(tables, scope, outcome, y.get(), least)
            } else {
                value(tables, scope, outcome, BOOL, e, least)
            }
        }
        Expr::Choose(spot, c, x, y) => {
            condition(tables, scope, outcome, spot.place, c.get(), least)?;
            parts(tables, scope, outcome, x.get(), least)?;
            parts(tables, scope, outcome, y.get(), least)
        }
        Expr::Call(spot, name, given) => {
            let name = name.as_slice();
            let given = given.as_slice();
            predicate_call(tables, scope, outcome, spot.place, name, given, least)
        }
        _ => value(tables, scope, outcome, BOOL, e, least),
    }
}

/// A formula.
pub fn formula(
    tables: &Tables<'_>,
    scope: &Scope<'_>,
    outcome: Option<ValueType>,
    formula: &Formula,
    least: &mut Option<Violation>,
) -> Result<(), AllocError>
    ensures { OnOk result (least.new ≡ fold earlier least.old (formula_violations tables.now scope.now outcome (formula_view formula.now))) }
{
    match &formula.parts {
        Some(e) => parts(tables, scope, outcome, e, least),
        None => Ok(()),
    }
}

fn instance(
    tables: &Tables<'_>,
    scope: &Scope<'_>,
    instance: &Instance,
    least: &mut Option<Violation>,
) -> Result<(), AllocError>
    ensures { OnOk result (least.new ≡ fold earlier least.old (instance_violations tables.now scope.now (instance_view instance.now))) }
{
    let name = instance.name.name.as_slice();
    let given = instance.arguments.as_slice();
    predicate_call(tables, scope, None, instance.name.place, name, given, least)
}

fn form(
    tables: &Tables<'_>,
    scope: &Scope<'_>,
    form: &NoteForm,
    least: &mut Option<Violation>,
) -> Result<(), AllocError>
    ensures { OnOk result (least.new ≡ fold earlier least.old (form_violations tables.now scope.now (form_view form.now))) }
{
    match form {
        NoteForm::Assert(f) => formula(tables, scope, None, f, least),
        NoteForm::Fold(i) => instance(tables, scope, i, least),
        NoteForm::Unfold(i) => instance(tables, scope, i, least),
    }
}

/// The clauses of an annotation among the statements.
pub fn notes(
    tables: &Tables<'_>,
    scope: &Scope<'_>,
    notes: &[Note],
    least: &mut Option<Violation>,
) -> Result<(), AllocError>
    ensures { OnOk result (least.new ≡ fold earlier least.old (notes_violations tables.now scope.now (map note_view notes.now))) }
{
    for note in notes {
        form(tables, scope, &note.form, least)?;
    }
    Ok(())
}

fn clauses(
    tables: &Tables<'_>,
    scope: &Scope<'_>,
    clauses: &[Invariant],
    least: &mut Option<Violation>,
) -> Result<(), AllocError>
    ensures { OnOk result (least.new ≡ fold earlier least.old (clauses_violations tables.now scope.now (map invariant_view clauses.now))) }
{
    for clause in clauses {
        formula(tables, scope, None, &clause.formula, least)?;
    }
    Ok(())
}

/// The invariants of a loop.
pub fn invariants(
    tables: &Tables<'_>,
    scope: &Scope<'_>,
    invariants: &[Invariants],
    least: &mut Option<Violation>,
) -> Result<(), AllocError>
    ensures { OnOk result (least.new ≡ fold earlier least.old (invariants_violations tables.now scope.now (map invariants_view invariants.now))) }
{
    for part in invariants {
        clauses(tables, scope, part.clauses.as_slice(), least)?;
    }
    Ok(())
}
