//! The types of expressions, and the violations in them.

#![tactic(auto, using(crate::specs::Least::least_both, c0_names::specs::Counted::count_view))]

ghost use Rattle.std.specs.Prelude.{◌≡◌, ◌&&◌, ◌++◌, fold, length, slice_get, is_some, Some, None, if◌then◌else◌, IfOk, OnOk};
ghost use Rattle.std.specs.Option.{option_map, option_copied};
ghost use Rattle.parsed_tree.specs.Tree.{spot_of};
ghost use Rattle.parsed_tree.specs.Views.{expr_view, exprs_view};
ghost use Rattle.c0_value_rules.specs.declared.violation.Rule.TheVariants.{Unknown, WrongType};
ghost use Rattle.c0_value_rules.specs.Violations.{earlier, unless};
ghost use Rattle.c0_names.specs.Names.{last_place};
ghost use Rattle.c0_names.specs.Tables.{signature_in, fields_of, value_type};
ghost use Rattle.c0_names.specs.Types.{bool, struct_behind, pointed, fits, prints_text, takes_to, callee};
ghost use Rattle.c0_names.specs.Typing.{unary_typed, binary_typed, choice_typed, field_in, arrow_typed, allocated, argument_fits, params_of, takes, called, count_of};
ghost use Rattle.c0_value_rules.specs.Scopes.{read_type};
ghost use Rattle.c0_value_rules.specs.Expressions.{type_here, arguments_fit_here, operand_violations, operands_violations, branches_violations, field_violations, arrow_violations, local_violations, struct_place, alloc_violations, due_violations, argument_violations, callee_violations, counted_violations, expr_violations, arguments_violations, call_violations, value_violations};

use crate::scope::Scope;
use crate::violation::{Rule, Violation, report, report_unless};
use c0_names::{
    BOOL, INT, Signature, Tables, ValueType, allocated, argument_fits, binary_type, callee,
    choice_type, field_in, parts_of, permission_typed, prints_text, text_called, unary_type,
};
use gc0_base::Place;
use parsed_tree::{Base, Expr, Named, Operator, Text, TypeName, UnaryOperator};
use std::alloc::AllocError;

// The type of an expression with this operand. A violation stands at the operator.
fn with_operand(
    place: Place,
    operator: UnaryOperator,
    operand: Option<ValueType>,
    least: &mut Option<Violation>,
) -> Option<ValueType>
    ensures typed { result ≡ unary_typed operator operand }
    ensures least { least.new ≡ fold earlier least.old (operand_violations place operator operand) }
{
    let made = unary_type(operator, operand?);
    report_unless(least, made.is_some(), Rule::WrongType, place);
    made
}

fn with_operands(
    place: Place,
    operator: Operator,
    a: Option<ValueType>,
    b: Option<ValueType>,
    least: &mut Option<Violation>,
) -> Option<ValueType>
    ensures typed { result ≡ binary_typed operator a b }
    ensures least { least.new ≡ fold earlier least.old (operands_violations place operator a b) }
{
    let made = binary_type(operator, a?, b?);
    report_unless(least, made.is_some(), Rule::WrongType, place);
    made
}

fn with_branches(
    place: Place,
    condition: Option<ValueType>,
    a: Option<ValueType>,
    b: Option<ValueType>,
    least: &mut Option<Violation>,
) -> Option<ValueType>
    ensures typed { result ≡ choice_typed condition a b }
    ensures least { least.new ≡ fold earlier least.old (branches_violations place condition a b) }
{
    let made = choice_type(condition?, a?, b?);
    report_unless(least, made.is_some(), Rule::WrongType, place);
    made
}

/// The type of a local that is read.
pub fn local(
    scope: &Scope<'_>,
    place: Place,
    name: &[u8],
    least: &mut Option<Violation>,
) -> Option<ValueType>
    ensures typed { result ≡ read_type scope.now name.now }
    ensures least { least.new ≡ fold earlier least.old (local_violations scope.now place name.now) }
{
    if scope.has(name) {
        report_unless(least, scope.is_read_well(name), Rule::Unassigned, place);
    } else {
        report(least, Rule::Unknown, place);
    }
    scope.read_type(name)
}

// The type of `\result`.
fn result_value(
    place: Place,
    outcome: Option<ValueType>,
    least: &mut Option<Violation>,
) -> Option<ValueType>
    ensures typed { result ≡ outcome }
    ensures least { least.new ≡ fold earlier least.old (unless (is_some outcome) Unknown place) }
{
    report_unless(least, outcome.is_some(), Rule::Unknown, place);
    outcome
}

// The type of the field behind a `->`.
fn field(
    tables: &Tables<'_>,
    arrow: Place,
    base: Option<ValueType>,
    name: &Named,
    least: &mut Option<Violation>,
) -> Option<ValueType>
    ensures typed { result ≡ arrow_typed tables.now base name.now.name }
    ensures least { least.new ≡ fold earlier least.old (arrow_violations tables.now arrow base name.now) }
{
    match base?.pointed() {
        Some(number) => {
            let typed = field_in(tables, Some(number), name.name.as_slice());
            report_unless(least, typed.is_some(), Rule::Unknown, name.place);
            typed
        }
        None => {
            report(least, Rule::WrongType, arrow);
            None
        }
    }
}

fn struct_place(place: Place, base: &Base) -> Place
    ensures { result ≡ struct_place place base.now }
{
    match base {
        Base::Int => place,
        Base::Bool => place,
        Base::Struct(name) => name.place,
        Base::Alias(_) => place,
    }
}

// What `alloc` names is a struct that is defined.
fn undefined(
    tables: &Tables<'_>,
    typed: &TypeName,
    number: Option<usize>,
    least: &mut Option<Violation>,
)
    ensures { least.new ≡ fold earlier least.old (alloc_violations tables.now typed.now number) }
{
    match number {
        Some(number) => {
            let defined = tables.fields_of(number).is_some();
            let place = struct_place(typed.place, &typed.base);
            report_unless(least, defined, Rule::Unknown, place);
        }
        None => report(least, Rule::WrongType, typed.place),
    }
}

// The type of `alloc`.
fn allocation(
    tables: &Tables<'_>,
    typed: &TypeName,
    least: &mut Option<Violation>,
) -> Result<Option<ValueType>, AllocError>
    ensures typed { IfOk result (λ v. v ≡ allocated tables.now (struct_behind 0 (value_type tables.now typed.now))) }
    ensures least { IfOk result (λ v. least.new ≡ fold earlier least.old (alloc_violations tables.now typed.now (struct_behind 0 (value_type tables.now typed.now)))) }
{
    let number = tables.value_type(typed)?.struct_behind(0);
    undefined(tables, typed, number, least);
    Ok(allocated(tables, number))
}

// A call with a string.
fn text_call(name: &[u8], text: &Text, least: &mut Option<Violation>) -> Option<ValueType>
    ensures typed { result ≡ (if prints_text name.now then Some ValueType.Void else None) }
    ensures least { least.new ≡ fold earlier least.old (unless (prints_text name.now) WrongType text.now.place) }
{
    report_unless(least, prints_text(name), Rule::WrongType, text.place);
    text_called(name)
}

/// Where a value has a type, it may stand where this one is due.
pub fn require(
    place: Place,
    due: ValueType,
    given: Option<ValueType>,
    least: &mut Option<Violation>,
)
    ensures { least.new ≡ fold earlier least.old (due_violations place due given) }
{
    if let Some(given) = given {
        report_unless(least, due.fits(given), Rule::WrongType, place);
    }
}

// Whether an argument has a type, and that of its parameter, if it has one.
fn suits(
    place: Place,
    due: Option<ValueType>,
    given: Option<ValueType>,
    least: &mut Option<Violation>,
) -> bool
    ensures fits { result ≡ argument_fits due given }
    ensures least { least.new ≡ fold earlier least.old (argument_violations place due given) }
{
    if let Some(due) = due {
        require(place, due, given, least);
    }
    argument_fits(due, given)
}

// Where the arguments fit, what is called is known, with a parameter for each.
fn counted(
    place: Place,
    params: &[ValueType],
    gives: Option<ValueType>,
    fit: bool,
    count: usize,
    least: &mut Option<Violation>,
)
    ensures { least.new ≡ fold earlier least.old (counted_violations fit place (option_map (λ r. takes_to params.now r) gives) count) }
{
    if fit {
        match gives {
            Some(_) => report_unless(least, params.len() == count, Rule::WrongCount, place),
            None => report(least, Rule::Unknown, place),
        }
    }
}

// The type of a call with so many arguments, which fit or do not.
fn called(
    place: Place,
    params: &[ValueType],
    gives: Option<ValueType>,
    fit: bool,
    count: usize,
    least: &mut Option<Violation>,
) -> Option<ValueType>
    ensures typed { result ≡ called (option_map (λ r. takes_to params.now r) gives) fit count }
    ensures least { least.new ≡ fold earlier least.old (counted_violations fit place (option_map (λ r. takes_to params.now r) gives) count) }
{
    counted(place, params, gives, fit, count, least);
    c0_names::called(params, gives, fit, count)
}

// The type of the parameter of this number, if there is one.
fn param(params: &[ValueType], number: usize) -> Option<ValueType>
    ensures { result ≡ slice_get params.now number }
{
    params.get(number).copied()
}

/// The type of an expression, and its violations. Outside the `ensures` of a function with a
/// result there is no type of `\result`.
#[cycle(expression)]
pub fn expression(
    tables: &Tables<'_>,
    scope: &Scope<'_>,
    outcome: Option<ValueType>,
    e: &Expr,
    least: &mut Option<Violation>,
) -> Result<Option<ValueType>, AllocError>
    ensures typed { IfOk result (λ v. v ≡ type_here tables.now scope.now outcome (expr_view e.now)) }
    ensures least { IfOk result (λ v. least.new ≡ fold earlier least.old (expr_violations tables.now scope.now outcome (expr_view e.now))) }
{
    match e {
        Expr::Number(_, _) => Ok(Some(INT)),
        Expr::Truth(_, _) => Ok(Some(BOOL)),
        Expr::Null(_) => Ok(Some(ValueType::Null)),
        Expr::Local(spot, name) => Ok(local(scope, spot.place, name.as_slice(), least)),
        Expr::Outcome(spot) => Ok(result_value(spot.place, outcome, least)),
        Expr::Unary(spot, operator, x) => {
            let x = x.get();
            unary(tables, scope, outcome, spot.place, *operator, x, least)
        }
        Expr::Binary(spot, operator, x, y) => {
            let left = expression(tables, scope, outcome, x.get(), least)?;
            let y = y.get();
            right_operand(
                tables, scope, outcome, spot.place, *operator, left, y, least,
            )
        }
        Expr::Choose(spot, c, x, y) => {
            let test = expression(tables, scope, outcome, c.get(), least)?;
            let yes = expression(tables, scope, outcome, x.get(), least)?;
            let y = y.get();
            last_branch(tables, scope, outcome, spot.place, test, yes, y, least)
        }
        Expr::Arrow(spot, x, name) => {
            arrow(tables, scope, outcome, spot.place, x.get(), name, least)
        }
        Expr::Call(spot, name, given) => {
            let name = name.as_slice();
            let given = given.as_slice();
            function_call(tables, scope, outcome, spot.place, name, given, least)
        }
        Expr::CallText(_, name, text) => Ok(text_call(name.as_slice(), text, least)),
        Expr::Alloc(_, typed) => allocation(tables, typed, least),
        Expr::Acc(_, x, place, name) => {
            permission(tables, scope, outcome, *place, x.get(), name, least)
        }
    }
}

// An operator at this place before its operand.
#[cycle(expression)]
fn unary(
    tables: &Tables<'_>,
    scope: &Scope<'_>,
    outcome: Option<ValueType>,
    place: Place,
    operator: UnaryOperator,
    x: &Expr,
    least: &mut Option<Violation>,
) -> Result<Option<ValueType>, AllocError>
    ensures typed { IfOk result (λ v. v ≡ unary_typed operator (type_here tables.now scope.now outcome (expr_view x.now))) }
    ensures least { IfOk result (λ v. least.new ≡ fold earlier least.old (expr_violations tables.now scope.now outcome (expr_view x.now) ++ operand_violations place operator (type_here tables.now scope.now outcome (expr_view x.now)))) }
{
    let typed = expression(tables, scope, outcome, x, least)?;
    Ok(with_operand(place, operator, typed, least))
}

// An operator at this place behind its left operand, of this type, and the right one.
#[cycle(expression)]
fn right_operand(
    tables: &Tables<'_>,
    scope: &Scope<'_>,
    outcome: Option<ValueType>,
    place: Place,
    operator: Operator,
    left: Option<ValueType>,
    y: &Expr,
    least: &mut Option<Violation>,
) -> Result<Option<ValueType>, AllocError>
    ensures typed { IfOk result (λ v. v ≡ binary_typed operator left (type_here tables.now scope.now outcome (expr_view y.now))) }
    ensures least { IfOk result (λ v. least.new ≡ fold earlier least.old (expr_violations tables.now scope.now outcome (expr_view y.now) ++ operands_violations place operator left (type_here tables.now scope.now outcome (expr_view y.now)))) }
{
    let right = expression(tables, scope, outcome, y, least)?;
    Ok(with_operands(place, operator, left, right, least))
}

// A `?` at this place behind its condition and first branch, of these types, and the other one.
#[cycle(expression)]
fn last_branch(
    tables: &Tables<'_>,
    scope: &Scope<'_>,
    outcome: Option<ValueType>,
    place: Place,
    condition: Option<ValueType>,
    yes: Option<ValueType>,
    y: &Expr,
    least: &mut Option<Violation>,
) -> Result<Option<ValueType>, AllocError>
    ensures typed { IfOk result (λ v. v ≡ choice_typed condition yes (type_here tables.now scope.now outcome (expr_view y.now))) }
    ensures least { IfOk result (λ v. least.new ≡ fold earlier least.old (expr_violations tables.now scope.now outcome (expr_view y.now) ++ branches_violations place condition yes (type_here tables.now scope.now outcome (expr_view y.now)))) }
{
    let no = expression(tables, scope, outcome, y, least)?;
    Ok(with_branches(place, condition, yes, no, least))
}

// A `->` at this place.
#[cycle(expression)]
fn arrow(
    tables: &Tables<'_>,
    scope: &Scope<'_>,
    outcome: Option<ValueType>,
    place: Place,
    x: &Expr,
    name: &Named,
    least: &mut Option<Violation>,
) -> Result<Option<ValueType>, AllocError>
    ensures typed { IfOk result (λ v. v ≡ arrow_typed tables.now (type_here tables.now scope.now outcome (expr_view x.now)) name.now.name) }
    ensures least { IfOk result (λ v. least.new ≡ fold earlier least.old (expr_violations tables.now scope.now outcome (expr_view x.now) ++ arrow_violations tables.now place (type_here tables.now scope.now outcome (expr_view x.now)) name.now)) }
{
    let base = expression(tables, scope, outcome, x, least)?;
    Ok(field(tables, place, base, name, least))
}

// An `acc` with its `->` at this place.
#[cycle(expression)]
fn permission(
    tables: &Tables<'_>,
    scope: &Scope<'_>,
    outcome: Option<ValueType>,
    place: Place,
    x: &Expr,
    name: &Named,
    least: &mut Option<Violation>,
) -> Result<Option<ValueType>, AllocError>
    ensures typed { IfOk result (λ v. v ≡ option_map (λ f. bool) (arrow_typed tables.now (type_here tables.now scope.now outcome (expr_view x.now)) name.now.name)) }
    ensures least { IfOk result (λ v. least.new ≡ fold earlier least.old (expr_violations tables.now scope.now outcome (expr_view x.now) ++ arrow_violations tables.now place (type_here tables.now scope.now outcome (expr_view x.now)) name.now)) }
{
    let base = expression(tables, scope, outcome, x, least)?;
    Ok(permission_typed(field(tables, place, base, name, least)))
}

// Whether the argument of this number has the type of its parameter.
#[cycle(expression)]
fn argument(
    tables: &Tables<'_>,
    scope: &Scope<'_>,
    outcome: Option<ValueType>,
    params: &[ValueType],
    number: usize,
    e: &Expr,
    least: &mut Option<Violation>,
) -> Result<bool, AllocError>
    ensures fits { IfOk result (λ fits. fits ≡ argument_fits (slice_get params.now number) (type_here tables.now scope.now outcome (expr_view e.now))) }
    ensures least { IfOk result (λ fits. least.new ≡ fold earlier least.old (expr_violations tables.now scope.now outcome (expr_view e.now) ++ argument_violations (spot_of (expr_view e.now)).first (slice_get params.now number) (type_here tables.now scope.now outcome (expr_view e.now)))) }
{
    let typed = expression(tables, scope, outcome, e, least)?;
    let due = param(params, number);
    let first = e.spot().first;
    Ok(suits(first, due, typed, least))
}

// Whether the arguments have the types of the parameters.
#[cycle(expression)]
fn arguments(
    tables: &Tables<'_>,
    scope: &Scope<'_>,
    outcome: Option<ValueType>,
    params: &[ValueType],
    given: &[Expr],
    least: &mut Option<Violation>,
) -> Result<bool, AllocError>
    ensures fit { IfOk result (λ fit. fit ≡ arguments_fit_here tables.now scope.now outcome params.now 0 (exprs_view given.now)) }
    ensures least { IfOk result (λ fit. least.new ≡ fold earlier least.old (arguments_violations tables.now scope.now outcome params.now 0 (exprs_view given.now))) }
{
    let mut fit = true;
    let mut number = 0;
    for e in given {
        let right = argument(tables, scope, outcome, params, number, e, least)?;
        fit = fit && right;
        number += 1;
    }
    Ok(fit)
}

// A call of a library call or of a function that is defined.
#[cycle(expression)]
fn function_call(
    tables: &Tables<'_>,
    scope: &Scope<'_>,
    outcome: Option<ValueType>,
    place: Place,
    name: &[u8],
    given: &[Expr],
    least: &mut Option<Violation>,
) -> Result<Option<ValueType>, AllocError>
    ensures typed { IfOk result (λ v. v ≡ called (callee tables.now.functions name.now) (arguments_fit_here tables.now scope.now outcome (params_of (callee tables.now.functions name.now)) 0 (exprs_view given.now)) (count_of (exprs_view given.now))) }
    ensures least { IfOk result (λ v. least.new ≡ fold earlier least.old (call_violations tables.now scope.now outcome place (callee tables.now.functions name.now) (exprs_view given.now))) }
{
    let (params, gives) = callee(tables, name);
    let fit = arguments(tables, scope, outcome, params, given, least)?;
    Ok(called(place, params, gives, fit, given.len(), least))
}

/// A call of a function, or an instance of a predicate, that is defined or not.
pub fn defined_call(
    tables: &Tables<'_>,
    scope: &Scope<'_>,
    outcome: Option<ValueType>,
    place: Place,
    found: Option<&Signature>,
    given: &[Expr],
    least: &mut Option<Violation>,
) -> Result<Option<ValueType>, AllocError>
    ensures typed { IfOk result (λ v. v ≡ called (option_copied found.entry) (arguments_fit_here tables.now scope.now outcome (params_of (option_copied found.entry)) 0 (exprs_view given.now)) (count_of (exprs_view given.now))) }
    ensures least { IfOk result (λ v. least.new ≡ fold earlier least.old (call_violations tables.now scope.now outcome place (option_copied found.entry) (exprs_view given.now))) }
{
    let (params, gives) = parts_of(found);
    let fit = arguments(tables, scope, outcome, params, given, least)?;
    Ok(called(place, params, gives, fit, given.len(), least))
}

/// An expression of which a type is due: at its first token.
pub fn value(
    tables: &Tables<'_>,
    scope: &Scope<'_>,
    outcome: Option<ValueType>,
    due: ValueType,
    e: &Expr,
    least: &mut Option<Violation>,
) -> Result<(), AllocError>
    ensures { OnOk result (least.new ≡ fold earlier least.old (value_violations tables.now scope.now outcome due (expr_view e.now))) }
{
    let given = expression(tables, scope, outcome, e, least)?;
    require(e.spot().first, due, given, least);
    Ok(())
}
