//! The temporaries of expressions, counted along them.

ghost use Rattle.std.specs.Prelude.{◌≡◌, Bool, IfOk, OnOk};
ghost use Rattle.std.specs.Option.{option_map};
ghost use Rattle.gc0_tree.specs.Views.{expr_view, exprs_view, trees_in, function_view, program_view};
ghost use Rattle.lowering_laws.specs.Counts.{or_int, tree_shape, with_result, with_constant, is_constant, counted, args_counted, first_counted};
ghost use Rattle.lowering_laws.specs.Statements.{room_of};
ghost use Rattle.temp_counts.specs.Counting.{Counting};

use crate::shapes::{
    common, gives, library_gives, or_int, read_shape, result_of, shape_at, unary_shape,
};
use crate::tally::Tally;
use gc0_tree::{Expr, ExprForm, Function, Program, Shape};
use sqlite_items::Boxed;
use std::alloc::AllocError;

// A temporary for what a call gives, where it gives something. Tells its shape.
fn hold_given(tally: &mut Tally, given: Option<Shape>) -> Result<Shape, AllocError>
    ensures shape { IfOk result (λ s. s ≡ or_int given) }
    ensures counting { OnOk result (Counting tally.old tally.new (with_result given)) }
{
    match given {
        None => Ok(Shape::Int),
        Some(shape) => tally.hold(shape),
    }
}

// A temporary for a constant argument of a call.
fn hold_constant(tally: &mut Tally, constant: bool, shape: Shape) -> Result<(), AllocError>
    ensures { OnOk result (Counting tally.old tally.new (with_constant constant shape)) }
{
    if constant {
        tally.hold(shape)?;
    }
    Ok(())
}

/// Whether no local and no temporary holds the value of an expression.
pub fn is_constant(e: &Expr) -> bool
    ensures { result ≡ is_constant (expr_view e.now) }
{
    match &e.form {
        ExprForm::Number(_) => true,
        ExprForm::Truth(_) => true,
        ExprForm::Null => true,
        ExprForm::Local(_) => false,
        ExprForm::ResultValue => true,
        ExprForm::Unary(_, _) => false,
        ExprForm::Binary(_, _, _) => false,
        ExprForm::Both(_, _) => false,
        ExprForm::Either(_, _) => false,
        ExprForm::Choose(_, _, _) => false,
        ExprForm::Read {
            base: _,
            of_struct: _,
            field: _,
        } => false,
        ExprForm::Call {
            function: _,
            arguments: _,
        } => false,
        ExprForm::Library {
            call: _,
            argument: _,
            text: _,
        } => false,
        ExprForm::Alloc(_) => false,
    }
}

/// Takes the temporaries of an expression, from left to right. Gives the shape of its value.
///
/// Errors: there was not memory enough, or there are 2^32 - 1 temporaries of a shape.
#[cycle(count_exprs)]
pub fn count_expr(
    tally: &mut Tally,
    program: &Program,
    function: &Function,
    e: &Expr,
) -> Result<Shape, AllocError>
    ensures shape { IfOk result (λ s. s ≡ tree_shape (program_view program.now) (room_of (function_view function.now)) (expr_view e.now)) }
    ensures counting { OnOk result (Counting tally.old tally.new (λ c. counted (program_view program.now) (room_of (function_view function.now)) c (expr_view e.now))) }
{
    match &e.form {
        ExprForm::Number(_) => Ok(Shape::Int),
        ExprForm::Truth(_) => Ok(Shape::Bool),
        ExprForm::Null => Ok(Shape::Null),
        ExprForm::Local(local) => Ok(shape_at(function.locals.as_slice(), *local as usize)),
        ExprForm::ResultValue => Ok(Shape::Int),
        ExprForm::Unary(op, a) => {
            count_expr(tally, program, function, a.get())?;
            tally.hold(unary_shape(*op))
        }
        ExprForm::Binary(op, a, b) => {
            count_expr(tally, program, function, a.get())?;
            count_expr(tally, program, function, b.get())?;
            tally.hold(gives(*op))
        }
        ExprForm::Both(a, b) => {
            count_expr(tally, program, function, a.get())?;
            count_expr(tally, program, function, b.get())?;
            tally.hold(Shape::Bool)
        }
        ExprForm::Either(a, b) => {
            count_expr(tally, program, function, a.get())?;
            count_expr(tally, program, function, b.get())?;
            tally.hold(Shape::Bool)
        }
        ExprForm::Choose(x, a, b) => {
            count_expr(tally, program, function, x.get())?;
            let yes = count_expr(tally, program, function, a.get())?;
            let no = count_expr(tally, program, function, b.get())?;
            tally.hold(or_int(common(yes, no)))
        }
        ExprForm::Read {
            base,
            of_struct,
            field,
        } => {
            count_expr(tally, program, function, base.get())?;
            tally.hold(read_shape(program, *of_struct, *field))
        }
        ExprForm::Call {
            function: callee,
            arguments,
        } => {
            count_arguments(tally, program, function, arguments.as_slice())?;
            hold_given(tally, result_of(program, *callee))
        }
        ExprForm::Library {
            call,
            argument,
            text: _,
        } => {
            count_first(tally, program, function, argument)?;
            hold_given(tally, library_gives(*call))
        }
        ExprForm::Alloc(of_struct) => tally.hold(Shape::Pointer(*of_struct)),
    }
}

// The arguments of a call.
#[cycle(count_exprs)]
fn count_arguments(
    tally: &mut Tally,
    program: &Program,
    function: &Function,
    es: &[Expr],
) -> Result<(), AllocError>
    ensures { OnOk result (Counting tally.old tally.new (λ c. args_counted (program_view program.now) (room_of (function_view function.now)) c (exprs_view es.now))) }
{
    for e in es {
        let shape = count_expr(tally, program, function, e)?;
        hold_constant(tally, is_constant(e), shape)?;
    }
    Ok(())
}

// The argument of a library call.
#[cycle(count_exprs)]
fn count_first(
    tally: &mut Tally,
    program: &Program,
    function: &Function,
    argument: &Option<Boxed<Expr>>,
) -> Result<(), AllocError>
    ensures { OnOk result (Counting tally.old tally.new (λ c. first_counted (program_view program.now) (room_of (function_view function.now)) c (trees_in (option_map expr_view argument.now)))) }
{
    match argument {
        None => Ok(()),
        Some(e) => {
            count_expr(tally, program, function, e.get())?;
            Ok(())
        }
    }
}
