//! Formulas with numbers in place of names.

ghost use Rattle.std.specs.Prelude.{◌≡◌, [], ◌∷◌, ◌++◌, ◌||◌, map, true, IfOk, OnOk};
ghost use Rattle.gc0_base.specs.declared.place.Place.{Place};
ghost use Rattle.gc0_tree.specs.Tree as gc0;
ghost use Rattle.gc0_tree.specs.Views.{expr_view, exprs_view, conjunct_view, conjuncts_view, in_front, formula_view};
ghost use Rattle.parsed_tree.specs.Views as read;
ghost use Rattle.c0_value_numbers.specs.Values.{number_in, accessed, type_in_frame};
ghost use Rattle.c0_value_numbers.specs.Formulas.{value_tree, values_tree, choices, optional_parts, formula_tree, instance_tree, are_none, any_imprecise, all_parts, joined, is_of, side_clauses, side_contracts, invariant_clauses, invariants};
ghost use Rattle.c0_value_numbers.specs.Formulas as formula_of;

use crate::expressions::{Typed, arguments, expression, truth};
use crate::frame::Frame;
use crate::values::{access, number_in, small};
use c0_names::Tables;
use gc0_base::Place;
use gc0_tree::{Conjunct, Expr, Formula};
use parsed_tree::{Clause, Contract, Instance, Invariant, Invariants, Operator, Side};
use sqlite_items::{Boxed, Items};
use std::alloc::{AllocError, Global};

// A value of a formula, with its type. A formula that was read has no text.
fn typed_value(
    alloc: Global,
    tables: &Tables,
    frame: &Frame,
    e: &parsed_tree::Expr,
) -> Result<Typed, AllocError>
    ensures tree { IfOk result (λ r. expr_view r.tree ≡ value_tree tables.now frame.now (read.expr_view e.now)) }
    ensures typed { IfOk result (λ r. r.typed ≡ type_in_frame tables.now frame.now (read.expr_view e.now)) }
{
    let mut texts = Items::new(alloc);
    expression(alloc, tables, frame, &mut texts, e)
}

fn value(
    alloc: Global,
    tables: &Tables,
    frame: &Frame,
    e: &parsed_tree::Expr,
) -> Result<Boxed<Expr>, AllocError>
    ensures { IfOk result (λ x. expr_view x ≡ value_tree tables.now frame.now (read.expr_view e.now)) }
{
    Ok(typed_value(alloc, tables, frame, e)?.tree)
}

// The arguments of an instance.
fn values(
    alloc: Global,
    tables: &Tables,
    frame: &Frame,
    es: &[parsed_tree::Expr],
) -> Result<Items<Expr>, AllocError>
    ensures { IfOk result (λ xs. exprs_view xs ≡ values_tree tables.now frame.now (read.exprs_view es.now)) }
{
    let mut texts = Items::new(alloc);
    Ok(arguments(alloc, tables, frame, &mut texts, &[], es)?.trees)
}

fn value_part(x: Boxed<Expr>) -> Conjunct
    ensures { (rest : gc0.Conjuncts) → conjunct_view result rest ≡ gc0.value_part (expr_view x) rest }
{
    Conjunct::Value(x.into_inner())
}

fn choice_part(
    place: Place,
    test: Boxed<Expr>,
    these: Items<Conjunct>,
    those: Items<Conjunct>,
) -> Conjunct
    ensures { (rest : gc0.Conjuncts) → conjunct_view result rest ≡ gc0.choice_part place (expr_view test) (conjuncts_view these) (conjuncts_view those) rest }
{
    Conjunct::Choice(place, test.into_inner(), these, those)
}

fn instance_part(
    alloc: Global,
    tables: &Tables,
    frame: &Frame,
    place: Place,
    name: &[u8],
    arguments: &[parsed_tree::Expr],
) -> Result<Conjunct, AllocError>
    ensures { IfOk result (λ c. (rest : gc0.Conjuncts) → conjunct_view c rest ≡ gc0.instance_part place (number_in tables.now.predicates.names name.now) (values_tree tables.now frame.now (read.exprs_view arguments.now)) rest) }
{
    let number = small(number_in(&tables.predicates.names, name))?;
    let arguments = values(alloc, tables, frame, arguments)?;
    Ok(Conjunct::Instance(place, number, arguments))
}

fn acc_part(
    alloc: Global,
    tables: &Tables,
    frame: &Frame,
    path: &parsed_tree::Expr,
    field: &[u8],
) -> Result<Conjunct, AllocError>
    ensures { IfOk result (λ c. (rest : gc0.Conjuncts) → conjunct_view c rest ≡ gc0.acc_part (value_tree tables.now frame.now (read.expr_view path.now)) (accessed tables.now (type_in_frame tables.now frame.now (read.expr_view path.now)) field.now).field rest) }
{
    let path = typed_value(alloc, tables, frame, path)?;
    let (_, number) = access(tables, path.typed, field)?;
    Ok(Conjunct::Acc(path.tree.into_inner(), number))
}

// This conjunct alone.
fn only(alloc: Global, part: Conjunct) -> Result<Items<Conjunct>, AllocError>
    ensures { IfOk result (λ cs. conjuncts_view cs ≡ conjunct_view part gc0.no_parts) }
{
    let mut parts = Items::new(alloc);
    parts.push(part)?;
    Ok(parts)
}

// The conjunct `true` at this place.
fn true_part(place: Place) -> Conjunct
    ensures { (rest : gc0.Conjuncts) → conjunct_view result rest ≡ gc0.value_part (gc0.truth_at place true) rest }
{
    Conjunct::Value(truth(place, true))
}

// `e || those`, with the `||` at this place, where `e` is no `||`.
fn last_choice(
    alloc: Global,
    tables: &Tables,
    frame: &Frame,
    place: Place,
    e: &parsed_tree::Expr,
    those: Items<Conjunct>,
) -> Result<Conjunct, AllocError>
    ensures { IfOk result (λ c. (rest : gc0.Conjuncts) → conjunct_view c rest ≡ gc0.choice_part place (value_tree tables.now frame.now (read.expr_view e.now)) (gc0.value_part (gc0.truth_at place true) gc0.no_parts) (conjuncts_view those) rest) }
{
    let yes = only(alloc, true_part(place))?;
    let test = value(alloc, tables, frame, e)?;
    Ok(choice_part(place, test, yes, those))
}

// `e || those`, with the `||` at this place.
fn choice(
    alloc: Global,
    tables: &Tables,
    frame: &Frame,
    place: Place,
    e: &parsed_tree::Expr,
    those: Items<Conjunct>,
) -> Result<Conjunct, AllocError>
    ensures { IfOk result (λ c. (rest : gc0.Conjuncts) → conjunct_view c rest ≡ choices tables.now frame.now place (read.expr_view e.now) (conjuncts_view those) rest) }
{
    match e {
        parsed_tree::Expr::Binary(spot, Operator::Either, a, b) => {
            let inner = choice(alloc, tables, frame, place, b.get(), those)?;
            let inner = only(alloc, inner)?;
            choice(alloc, tables, frame, spot.place, a.get(), inner)
        }
        _ => last_choice(alloc, tables, frame, place, e, those),
    }
}

fn push_part(part: Conjunct, parts: &mut Items<Conjunct>) -> Result<(), AllocError>
    ensures { OnOk result ((rest : gc0.Conjuncts) → in_front (map conjunct_view parts.new) rest ≡ in_front (map conjunct_view parts.old) (conjunct_view part rest)) }
{
    parts.push(part)?;
    Ok(())
}

// `a || those` behind others.
fn push_either(
    alloc: Global,
    tables: &Tables,
    frame: &Frame,
    place: Place,
    a: &parsed_tree::Expr,
    those: Items<Conjunct>,
    parts: &mut Items<Conjunct>,
) -> Result<(), AllocError>
    ensures { OnOk result ((rest : gc0.Conjuncts) → in_front (map conjunct_view parts.new) rest ≡ in_front (map conjunct_view parts.old) (choices tables.now frame.now place (read.expr_view a.now) (conjuncts_view those) rest)) }
{
    let either = choice(alloc, tables, frame, place, a, those)?;
    push_part(either, parts)?;
    Ok(())
}

// `test ? these : those` behind others.
fn push_choice(
    alloc: Global,
    tables: &Tables,
    frame: &Frame,
    place: Place,
    test: &parsed_tree::Expr,
    these: Items<Conjunct>,
    those: Items<Conjunct>,
    parts: &mut Items<Conjunct>,
) -> Result<(), AllocError>
    ensures { OnOk result ((rest : gc0.Conjuncts) → in_front (map conjunct_view parts.new) rest ≡ in_front (map conjunct_view parts.old) (gc0.choice_part place (value_tree tables.now frame.now (read.expr_view test.now)) (conjuncts_view these) (conjuncts_view those) rest)) }
{
    let test = value(alloc, tables, frame, test)?;
    push_part(choice_part(place, test, these, those), parts)?;
    Ok(())
}

// `acc(path->field)` behind others.
fn push_acc(
    alloc: Global,
    tables: &Tables,
    frame: &Frame,
    path: &parsed_tree::Expr,
    field: &[u8],
    parts: &mut Items<Conjunct>,
) -> Result<(), AllocError>
    ensures { OnOk result ((rest : gc0.Conjuncts) → in_front (map conjunct_view parts.new) rest ≡ in_front (map conjunct_view parts.old) (gc0.acc_part (value_tree tables.now frame.now (read.expr_view path.now)) (accessed tables.now (type_in_frame tables.now frame.now (read.expr_view path.now)) field.now).field rest)) }
{
    let acc = acc_part(alloc, tables, frame, path, field)?;
    push_part(acc, parts)?;
    Ok(())
}

// An instance of a predicate behind others.
fn push_instance(
    alloc: Global,
    tables: &Tables,
    frame: &Frame,
    place: Place,
    name: &[u8],
    arguments: &[parsed_tree::Expr],
    parts: &mut Items<Conjunct>,
) -> Result<(), AllocError>
    ensures { OnOk result ((rest : gc0.Conjuncts) → in_front (map conjunct_view parts.new) rest ≡ in_front (map conjunct_view parts.old) (gc0.instance_part place (number_in tables.now.predicates.names name.now) (values_tree tables.now frame.now (read.exprs_view arguments.now)) rest)) }
{
    let instance = instance_part(alloc, tables, frame, place, name, arguments)?;
    push_part(instance, parts)?;
    Ok(())
}

// A truth behind others.
fn push_value(
    alloc: Global,
    tables: &Tables,
    frame: &Frame,
    e: &parsed_tree::Expr,
    parts: &mut Items<Conjunct>,
) -> Result<(), AllocError>
    ensures { OnOk result ((rest : gc0.Conjuncts) → in_front (map conjunct_view parts.new) rest ≡ in_front (map conjunct_view parts.old) (gc0.value_part (value_tree tables.now frame.now (read.expr_view e.now)) rest)) }
{
    let truth = value(alloc, tables, frame, e)?;
    push_part(value_part(truth), parts)?;
    Ok(())
}

// The conjuncts of a formula's parts behind others.
#[cycle(parts)]
fn push_parts(
    alloc: Global,
    tables: &Tables,
    frame: &Frame,
    e: &parsed_tree::Expr,
    parts: &mut Items<Conjunct>,
) -> Result<(), AllocError>
    ensures { OnOk result ((rest : gc0.Conjuncts) → in_front (map conjunct_view parts.new) rest ≡ in_front (map conjunct_view parts.old) (formula_of.parts tables.now frame.now (read.expr_view e.now) rest)) }
{
    match e {
        parsed_tree::Expr::Binary(_, Operator::Both, a, b) => {
            push_parts(alloc, tables, frame, a.get(), parts)?;
            push_parts(alloc, tables, frame, b.get(), parts)?;
            Ok(())
        }
        parsed_tree::Expr::Binary(spot, Operator::Either, a, b) => {
            let those = parts_of(alloc, tables, frame, b.get())?;
            push_either(alloc, tables, frame, spot.place, a.get(), those, parts)?;
            Ok(())
        }
        parsed_tree::Expr::Choose(spot, test, yes, no) => {
            let these = parts_of(alloc, tables, frame, yes.get())?;
            let those = parts_of(alloc, tables, frame, no.get())?;
            let (place, test) = (spot.place, test.get());
            push_choice(alloc, tables, frame, place, test, these, those, parts)?;
            Ok(())
        }
        parsed_tree::Expr::Acc(_, path, _, field) => {
            push_acc(
                alloc,
                tables,
                frame,
                path.get(),
                field.name.as_slice(),
                parts,
            )?;
            Ok(())
        }
        parsed_tree::Expr::Call(spot, name, arguments) => {
            let (name, arguments) = (name.as_slice(), arguments.as_slice());
            push_instance(alloc, tables, frame, spot.place, name, arguments, parts)?;
            Ok(())
        }
        _ => {
            push_value(alloc, tables, frame, e, parts)?;
            Ok(())
        }
    }
}

/// The conjuncts of a formula's parts.
#[cycle(parts)]
pub fn parts_of(
    alloc: Global,
    tables: &Tables,
    frame: &Frame,
    e: &parsed_tree::Expr,
) -> Result<Items<Conjunct>, AllocError>
    ensures { IfOk result (λ cs. conjuncts_view cs ≡ formula_of.parts tables.now frame.now (read.expr_view e.now) gc0.no_parts) }
{
    let mut parts = Items::new(alloc);
    push_parts(alloc, tables, frame, e, &mut parts)?;
    Ok(parts)
}

// The conjuncts of a formula behind others.
fn push_formula(
    alloc: Global,
    tables: &Tables,
    frame: &Frame,
    formula: &parsed_tree::Formula,
    parts: &mut Items<Conjunct>,
) -> Result<(), AllocError>
    ensures { OnOk result ((rest : gc0.Conjuncts) → in_front (map conjunct_view parts.new) rest ≡ in_front (map conjunct_view parts.old) (optional_parts tables.now frame.now (read.formula_view formula.now).parts rest)) }
{
    match &formula.parts {
        Some(e) => push_parts(alloc, tables, frame, e, parts),
        None => Ok(()),
    }
}

/// A formula with numbers in place of names.
pub fn formula(
    alloc: Global,
    tables: &Tables,
    frame: &Frame,
    formula: &parsed_tree::Formula,
) -> Result<Formula, AllocError>
    ensures { IfOk result (λ f. formula_view f ≡ formula_tree tables.now frame.now (read.formula_view formula.now)) }
{
    let mut parts = Items::new(alloc);
    push_formula(alloc, tables, frame, formula, &mut parts)?;
    Ok(Formula {
        imprecise: formula.imprecise,
        parts,
    })
}

/// The instance of a `fold` or an `unfold`, as the one conjunct of a formula.
pub fn instance(
    alloc: Global,
    tables: &Tables,
    frame: &Frame,
    instance: &Instance,
) -> Result<Formula, AllocError>
    ensures { IfOk result (λ f. formula_view f ≡ instance_tree tables.now frame.now (read.instance_view instance.now)) }
{
    let name = &instance.name;
    let part = instance_part(
        alloc,
        tables,
        frame,
        name.place,
        name.name.as_slice(),
        instance.arguments.as_slice(),
    )?;
    Ok(Formula {
        imprecise: false,
        parts: only(alloc, part)?,
    })
}

fn any_imprecise(formulas: &[&parsed_tree::Formula]) -> bool
    ensures { result ≡ any_imprecise (map (λ g. read.formula_view g.now) formulas.now) }
{
    for formula in formulas {
        if formula.imprecise {
            return true;
        }
    }
    false
}

/// Clauses joined in their order.
pub fn joined(
    alloc: Global,
    tables: &Tables,
    frame: &Frame,
    formulas: &[&parsed_tree::Formula],
) -> Result<Formula, AllocError>
    ensures { IfOk result (λ f. formula_view f ≡ joined tables.now frame.now (map (λ g. read.formula_view g.now) formulas.now)) }
{
    let mut parts = Items::new(alloc);
    for formula in formulas {
        push_formula(alloc, tables, frame, formula, &mut parts)?;
    }
    let imprecise = formulas.is_empty() || any_imprecise(formulas);
    Ok(Formula { imprecise, parts })
}

fn is_of(side: Side, other: Side) -> bool
    ensures { result ≡ is_of side other }
{
    match (side, other) {
        (Side::Requires, Side::Requires) => true,
        (Side::Requires, Side::Ensures) => false,
        (Side::Ensures, Side::Requires) => false,
        (Side::Ensures, Side::Ensures) => true,
    }
}

fn push_clauses<'a>(
    side: Side,
    clauses: &'a [Clause],
    formulas: &mut Vec<&'a parsed_tree::Formula>,
) -> Result<(), AllocError>
    ensures { OnOk result (map (λ g. read.formula_view g.now) formulas.new.items ≡ map (λ g. read.formula_view g.now) formulas.old.items ++ side_clauses side (map read.clause_view clauses.now)) }
{
    for clause in clauses {
        if is_of(side, clause.side) {
            formulas.push(&clause.formula)?;
        }
    }
    Ok(())
}

/// The clauses of one side of a contract.
pub fn side_contracts<'a>(
    alloc: Global,
    side: Side,
    contracts: &'a [Contract],
) -> Result<Vec<&'a parsed_tree::Formula>, AllocError>
    ensures { IfOk result (λ gs. map (λ g. read.formula_view g.now) gs.items ≡ side_contracts side (map read.contract_view contracts.now)) }
{
    let mut formulas = Vec::new(alloc);
    for contract in contracts {
        push_clauses(side, contract.clauses.as_slice(), &mut formulas)?;
    }
    Ok(formulas)
}

fn push_invariants<'a>(
    clauses: &'a [Invariant],
    formulas: &mut Vec<&'a parsed_tree::Formula>,
) -> Result<(), AllocError>
    ensures { OnOk result (map (λ g. read.formula_view g.now) formulas.new.items ≡ map (λ g. read.formula_view g.now) formulas.old.items ++ invariant_clauses (map read.invariant_view clauses.now)) }
{
    for clause in clauses {
        formulas.push(&clause.formula)?;
    }
    Ok(())
}

/// The invariants of a loop.
pub fn invariants<'a>(
    alloc: Global,
    annotations: &'a [Invariants],
) -> Result<Vec<&'a parsed_tree::Formula>, AllocError>
    ensures { IfOk result (λ gs. map (λ g. read.formula_view g.now) gs.items ≡ invariants (map read.invariants_view annotations.now)) }
{
    let mut formulas = Vec::new(alloc);
    for annotation in annotations {
        push_invariants(annotation.clauses.as_slice(), &mut formulas)?;
    }
    Ok(formulas)
}
