//! The code of expressions.

ghost use Rattle.gc0_base.specs.declared.site.Kind.TheVariants as kind;
ghost use Rattle.gc0_tree.specs.declared.Shape.TheVariants as shape;
ghost use Rattle.gc0_tree.specs.Fits.{gives};
ghost use Rattle.std.specs.Prelude.{◌≡◌, ◌++◌, [], Some, Ok, IfOk, OnOk};
ghost use Rattle.std.specs.Option.{option_map};
ghost use Rattle.gc0_base.specs.declared.place.Place.{Place as Place'};
ghost use Rattle.core_tree.specs.declared.Simple.TheVariants as simple;
ghost use Rattle.gc0_tree.specs.Tree.{unary_at, binary_at, both_at, either_at, choose_at, read_at, alloc_at};
ghost use Rattle.gc0_tree.specs.Views.{expr_view, exprs_view, trees_in};
ghost use Rattle.core_tree.specs.CoreTree.{no_code};
ghost use Rattle.lowering_laws.specs.Counts.{Counts, tree_shape, counted, first_counted, with_temp, decided};
ghost use Rattle.lowering_laws.specs.Trees.{value_of, tree_code, first_value, first_code, join, temp, operator_code};
ghost use Rattle.lowering_laws.specs.Tables.{branch, tree_decisions, tree_placed, first_decisions, first_placed, op_placed};
ghost use Rattle.core_expressions.specs.Writing.{IsWithin, program_of, places_of, room_in, target_of, StandsFor, IsWritten, IsOperand, counts_behind, shape_in, value_in, code_in, decisions_for, placed_for, temp_in};
ghost use Rattle.core_expressions.specs.Branches.{IsAside, both_code, either_code, shape_with, other_code};
ghost use Rattle.core_expressions.specs.Passing.{IsPassed, ArePassed};

use crate::branches::{Aside, bare, close, finish_branch, open};
use crate::calls::{finish_argument, finish_call, finish_library};
use crate::operand::Operand;
use crate::operators::lower_operator;
use crate::parts::{push_load, push_new, push_unary, zero};
use crate::shapes::{chosen_shape, local_shape, truth};
use crate::within::Within;
use crate::written::Written;
use core_tree::Simple;
use gc0_base::{Decision, Place, Word};
use gc0_tree::{Expr, ExprForm, ExprOp, Shape, UnaryOp};
use sqlite_items::{Boxed, Items};
use std::alloc::AllocError;
use temp_counts::{gives, is_constant, read_shape, unary_shape};

/// Writes the code of an expression, and gives where its value is behind it.
///
/// Errors: there was not memory enough, or a number would be 2^32 or more.
#[cycle(lower_expr)]
pub fn lower_expr(within: &Within<'_>, out: &mut Written, e: &Expr) -> Result<Operand, AllocError>
    requires { IsWithin within.now }
    ensures value { (c : Counts) → StandsFor out.old c → IfOk result (λ x. x.value ≡ value_of (program_of within.now) (room_in within.now) (target_of within.now) c (expr_view e.now)) }
    ensures shape { IfOk result (λ x. x.shape ≡ tree_shape (program_of within.now) (room_in within.now) (expr_view e.now)) }
    ensures written { (c : Counts) → StandsFor out.old c → OnOk result (IsWritten out.old out.new (counted (program_of within.now) (room_in within.now) c (expr_view e.now)) (tree_code (program_of within.now) (room_in within.now) (target_of within.now) c (expr_view e.now)) (tree_decisions (program_of within.now) (places_of within.now) (expr_view e.now)) (tree_placed (places_of within.now) (expr_view e.now))) }
{
    match &e.form {
        ExprForm::Number(word) => constant(*word, Shape::Int),
        ExprForm::Truth(b) => constant(truth(*b), Shape::Bool),
        ExprForm::Null => constant(Word(0), Shape::Null),
        ExprForm::Local(i) => Ok(Operand {
            value: Simple::Local(*i),
            shape: local_shape(within, *i),
        }),
        ExprForm::ResultValue => constant(Word(0), Shape::Int),
        ExprForm::Unary(op, a) => lower_unary(within, out, e.place, *op, a.get()),
        ExprForm::Binary(op, a, b) => {
            let left = lower_expr(within, out, a.get())?;
            lower_right(within, out, e.place, *op, left.value, b.get())
        }
        ExprForm::Both(a, b) => {
            let left = lower_expr(within, out, a.get())?;
            lower_both(within, out, e.place, left.value, b.get())
        }
        ExprForm::Either(a, b) => {
            let left = lower_expr(within, out, a.get())?;
            lower_either(within, out, e.place, left.value, b.get())
        }
        ExprForm::Choose(x, a, b) => {
            let truth = lower_expr(within, out, x.get())?;
            let decision = out.branch(within, e.place)?;
            let yes = lower_aside(within, out, a.get())?;
            lower_other(within, out, decision, truth.value, b.get(), yes)
        }
        ExprForm::Read {
            base,
            of_struct,
            field,
        } => lower_read(within, out, e.place, base.get(), *of_struct, *field),
        ExprForm::Call {
            function,
            arguments,
        } => {
            let locals = lower_arguments(within, out, arguments.as_slice())?;
            finish_call(within, out, e.place, *function, locals)
        }
        ExprForm::Library {
            call,
            argument,
            text,
        } => {
            let value = lower_first(within, out, argument)?;
            finish_library(within, out, e.place, *call, value, *text)
        }
        ExprForm::Alloc(k) => lower_alloc(within, out, *k),
    }
}

fn constant(word: Word, shape: Shape) -> Result<Operand, AllocError>
    ensures { result ≡ Ok record { value = simple.Const word; shape = shape } }
{
    Ok(Operand {
        value: Simple::Const(word),
        shape,
    })
}

fn lower_alloc(
    within: &Within<'_>,
    out: &mut Written,
    of_struct: u32,
) -> Result<Operand, AllocError>
    requires { IsWithin within.now }
    ensures value { (at : Place') (c : Counts) → StandsFor out.old c → IfOk result (λ x. x.value ≡ value_of (program_of within.now) (room_in within.now) (target_of within.now) c (alloc_at at of_struct)) }
    ensures shape { (at : Place') → IfOk result (λ x. x.shape ≡ tree_shape (program_of within.now) (room_in within.now) (alloc_at at of_struct)) }
    ensures written { (at : Place') (c : Counts) → StandsFor out.old c → OnOk result (IsWritten out.old out.new (counted (program_of within.now) (room_in within.now) c (alloc_at at of_struct)) (tree_code (program_of within.now) (room_in within.now) (target_of within.now) c (alloc_at at of_struct)) (tree_decisions (program_of within.now) (places_of within.now) (alloc_at at of_struct)) (tree_placed (places_of within.now) (alloc_at at of_struct))) }
{
    let shape = Shape::Pointer(of_struct);
    let to = out.take(within, shape)?;
    push_new(out, to, of_struct)?;
    Ok(Operand {
        value: Simple::Local(to),
        shape,
    })
}

#[cycle(lower_expr)]
fn lower_unary(
    within: &Within<'_>,
    out: &mut Written,
    place: Place,
    op: UnaryOp,
    a: &Expr,
) -> Result<Operand, AllocError>
    requires { IsWithin within.now }
    ensures value { (c : Counts) → StandsFor out.old c → IfOk result (λ x. x.value ≡ value_of (program_of within.now) (room_in within.now) (target_of within.now) c (unary_at place op (expr_view a.now))) }
    ensures shape { IfOk result (λ x. x.shape ≡ tree_shape (program_of within.now) (room_in within.now) (unary_at place op (expr_view a.now))) }
    ensures written { (c : Counts) → StandsFor out.old c → OnOk result (IsWritten out.old out.new (counted (program_of within.now) (room_in within.now) c (unary_at place op (expr_view a.now))) (tree_code (program_of within.now) (room_in within.now) (target_of within.now) c (unary_at place op (expr_view a.now))) (tree_decisions (program_of within.now) (places_of within.now) (unary_at place op (expr_view a.now))) (tree_placed (places_of within.now) (unary_at place op (expr_view a.now)))) }
{
    let operand = lower_expr(within, out, a)?;
    let shape = unary_shape(op);
    let to = out.take(within, shape)?;
    push_unary(out, to, op, operand.value)?;
    Ok(Operand {
        value: Simple::Local(to),
        shape,
    })
}

// An operator behind its left operand.
#[cycle(lower_expr)]
fn lower_right(
    within: &Within<'_>,
    out: &mut Written,
    place: Place,
    op: ExprOp,
    left: Simple,
    b: &Expr,
) -> Result<Operand, AllocError>
    requires { IsWithin within.now }
    ensures value { (c : Counts) → StandsFor out.old c → IfOk result (λ x. x.value ≡ simple.Local (temp (target_of within.now) (gives op) (counted (program_of within.now) (room_in within.now) c (expr_view b.now)))) }
    ensures shape { IfOk result (λ x. x.shape ≡ gives op) }
    ensures written { (c : Counts) → StandsFor out.old c → OnOk result (IsWritten out.old out.new (with_temp (gives op) (counted (program_of within.now) (room_in within.now) c (expr_view b.now))) (join (tree_code (program_of within.now) (room_in within.now) (target_of within.now) c (expr_view b.now)) (operator_code (temp (target_of within.now) (gives op) (counted (program_of within.now) (room_in within.now) c (expr_view b.now))) op (places_of within.now kind.Trap place) left (value_of (program_of within.now) (room_in within.now) (target_of within.now) c (expr_view b.now)))) (tree_decisions (program_of within.now) (places_of within.now) (expr_view b.now)) (tree_placed (places_of within.now) (expr_view b.now) ++ op_placed (places_of within.now) (Some op) place)) }
{
    let right = lower_expr(within, out, b)?;
    let shape = gives(op);
    let to = out.take(within, shape)?;
    lower_operator(within, out, to, op, place, left, right.value)?;
    Ok(Operand {
        value: Simple::Local(to),
        shape,
    })
}

#[cycle(lower_expr)]
fn lower_read(
    within: &Within<'_>,
    out: &mut Written,
    place: Place,
    base: &Expr,
    of_struct: u32,
    field: u32,
) -> Result<Operand, AllocError>
    requires { IsWithin within.now }
    ensures value { (c : Counts) → StandsFor out.old c → IfOk result (λ x. x.value ≡ value_of (program_of within.now) (room_in within.now) (target_of within.now) c (read_at place (expr_view base.now) of_struct field)) }
    ensures shape { IfOk result (λ x. x.shape ≡ tree_shape (program_of within.now) (room_in within.now) (read_at place (expr_view base.now) of_struct field)) }
    ensures written { (c : Counts) → StandsFor out.old c → OnOk result (IsWritten out.old out.new (counted (program_of within.now) (room_in within.now) c (read_at place (expr_view base.now) of_struct field)) (tree_code (program_of within.now) (room_in within.now) (target_of within.now) c (read_at place (expr_view base.now) of_struct field)) (tree_decisions (program_of within.now) (places_of within.now) (read_at place (expr_view base.now) of_struct field)) (tree_placed (places_of within.now) (read_at place (expr_view base.now) of_struct field))) }
{
    let operand = lower_expr(within, out, base)?;
    let shape = read_shape(within.program, of_struct, field);
    let to = out.take(within, shape)?;
    push_load(within, out, to, operand.value, of_struct, field, place)?;
    Ok(Operand {
        value: Simple::Local(to),
        shape,
    })
}

// The code of an expression, apart from the code so far.
#[cycle(lower_expr)]
fn lower_aside(within: &Within<'_>, out: &mut Written, e: &Expr) -> Result<Aside, AllocError>
    requires { IsWithin within.now }
    ensures aside { (c : Counts) → StandsFor out.old c → IfOk result (λ x. IsAside within.now c (expr_view e.now) x) }
    ensures written { (c : Counts) → StandsFor out.old c → OnOk result (IsWritten out.old out.new (counts_behind within.now c (expr_view e.now)) no_code (decisions_for within.now (expr_view e.now)) (placed_for within.now (expr_view e.now))) }
{
    let outer = open(within.alloc, out);
    let x = lower_expr(within, out, e)?;
    let code = close(out, outer);
    Ok(Aside {
        value: x.value,
        shape: x.shape,
        code,
    })
}

// `left && b` behind its left operand: where that is false, `b` isn't evaluated.
#[cycle(lower_expr)]
fn lower_both(
    within: &Within<'_>,
    out: &mut Written,
    place: Place,
    left: Simple,
    b: &Expr,
) -> Result<Operand, AllocError>
    requires { IsWithin within.now }
    ensures { (c : Counts) → StandsFor out.old c → IfOk result (λ x. IsOperand out.old out.new x (simple.Local (temp_in within.now shape.Bool (counts_behind within.now (decided 1 c) (expr_view b.now)))) shape.Bool (with_temp shape.Bool (counts_behind within.now (decided 1 c) (expr_view b.now))) (both_code within.now c left (expr_view b.now)) (branch place ++ decisions_for within.now (expr_view b.now)) (placed_for within.now (expr_view b.now))) }
{
    let decision = out.branch(within, place)?;
    let right = lower_aside(within, out, b)?;
    let no = bare(within.alloc, zero(), Shape::Bool);
    finish_branch(within, out, decision, left, Shape::Bool, right, no)
}

// `left || b` behind its left operand: where that is true, `b` isn't evaluated.
#[cycle(lower_expr)]
fn lower_either(
    within: &Within<'_>,
    out: &mut Written,
    place: Place,
    left: Simple,
    b: &Expr,
) -> Result<Operand, AllocError>
    requires { IsWithin within.now }
    ensures { (c : Counts) → StandsFor out.old c → IfOk result (λ x. IsOperand out.old out.new x (simple.Local (temp_in within.now shape.Bool (counts_behind within.now (decided 1 c) (expr_view b.now)))) shape.Bool (with_temp shape.Bool (counts_behind within.now (decided 1 c) (expr_view b.now))) (either_code within.now c left (expr_view b.now)) (branch place ++ decisions_for within.now (expr_view b.now)) (placed_for within.now (expr_view b.now))) }
{
    let decision = out.branch(within, place)?;
    let right = lower_aside(within, out, b)?;
    let yes = bare(within.alloc, left, Shape::Bool);
    finish_branch(within, out, decision, left, Shape::Bool, yes, right)
}

// The second side of a choice, and the choice.
#[cycle(lower_expr)]
fn lower_other(
    within: &Within<'_>,
    out: &mut Written,
    decision: Decision,
    truth: Simple,
    b: &Expr,
    yes: Aside,
) -> Result<Operand, AllocError>
    requires { IsWithin within.now }
    ensures { (c : Counts) → StandsFor out.old c → IfOk result (λ x. IsOperand out.old out.new x (simple.Local (temp_in within.now (shape_with within.now yes.shape (expr_view b.now)) (counts_behind within.now c (expr_view b.now)))) (shape_with within.now yes.shape (expr_view b.now)) (with_temp (shape_with within.now yes.shape (expr_view b.now)) (counts_behind within.now c (expr_view b.now))) (other_code within.now c decision truth (temp_in within.now (shape_with within.now yes.shape (expr_view b.now)) (counts_behind within.now c (expr_view b.now))) yes (expr_view b.now)) (decisions_for within.now (expr_view b.now)) (placed_for within.now (expr_view b.now))) }
{
    let no = lower_aside(within, out, b)?;
    let shape = chosen_shape(yes.shape, no.shape);
    finish_branch(within, out, decision, truth, shape, yes, no)
}

// The arguments of a call, each in a local. Gives the locals.
#[cycle(lower_expr)]
fn lower_arguments(
    within: &Within<'_>,
    out: &mut Written,
    es: &[Expr],
) -> Result<Items<u32>, AllocError>
    requires { IsWithin within.now }
    ensures { (c : Counts) → StandsFor out.old c → IfOk result (λ locals. ArePassed within.now out.old out.new c (exprs_view es.now) [] locals) }
{
    let mut locals = Items::new(within.alloc);
    for e in es {
        let local = lower_argument(within, out, e)?;
        locals.push(local)?;
    }
    Ok(locals)
}

// An argument of a call. Gives its local.
#[cycle(lower_expr)]
fn lower_argument(within: &Within<'_>, out: &mut Written, e: &Expr) -> Result<u32, AllocError>
    requires { IsWithin within.now }
    ensures { (c : Counts) → StandsFor out.old c → IfOk result (λ local. IsPassed within.now out.old out.new c (expr_view e.now) local) }
{
    let x = lower_expr(within, out, e)?;
    finish_argument(within, out, is_constant(e), x)
}

// The argument of a library call, where it has one.
#[cycle(lower_expr)]
fn lower_first(
    within: &Within<'_>,
    out: &mut Written,
    argument: &Option<Boxed<Expr>>,
) -> Result<Option<Simple>, AllocError>
    requires { IsWithin within.now }
    ensures value { (c : Counts) → StandsFor out.old c → IfOk result (λ x. x ≡ first_value (program_of within.now) (room_in within.now) (target_of within.now) c (trees_in (option_map expr_view argument.now))) }
    ensures written { (c : Counts) → StandsFor out.old c → OnOk result (IsWritten out.old out.new (first_counted (program_of within.now) (room_in within.now) c (trees_in (option_map expr_view argument.now))) (first_code (program_of within.now) (room_in within.now) (target_of within.now) c (trees_in (option_map expr_view argument.now))) (first_decisions (program_of within.now) (places_of within.now) (trees_in (option_map expr_view argument.now))) (first_placed (places_of within.now) (trees_in (option_map expr_view argument.now)))) }
{
    match argument {
        None => Ok(None),
        Some(e) => {
            let x = lower_expr(within, out, e.get())?;
            Ok(Some(x.value))
        }
    }
}
