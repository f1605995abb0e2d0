//! Copies of expressions.

ghost use Rattle.std.specs.Prelude.{◌≡◌, map, IfOk};
ghost use Rattle.std.specs.Option.{option_map};
ghost use Rattle.gc0_tree.specs.Tree.{read_at, call_at, library_at};
ghost use Rattle.gc0_tree.specs.Views.{expr_view, exprs_view, form_view, trees_in};

use gc0_base::Place;
use gc0_tree::{Expr, ExprForm, LibraryCall};
use sqlite_items::{Boxed, Items};
use std::alloc::{AllocError, Global};

// An expression of this form at this place.
fn placed(alloc: Global, place: Place, form: ExprForm) -> Result<Boxed<Expr>, AllocError>
    ensures { IfOk result (λ e. expr_view e ≡ form_view form place) }
{
    Boxed::new(alloc, Expr { place, form })
}

// A field behind a base.
fn read(
    alloc: Global,
    place: Place,
    base: Boxed<Expr>,
    of_struct: u32,
    field: u32,
) -> Result<Boxed<Expr>, AllocError>
    ensures { IfOk result (λ e. expr_view e ≡ read_at place (expr_view base) of_struct field) }
{
    let form = ExprForm::Read {
        base,
        of_struct,
        field,
    };
    placed(alloc, place, form)
}

// A call of a function of the program.
fn call_of(
    alloc: Global,
    place: Place,
    function: u32,
    arguments: Items<Expr>,
) -> Result<Boxed<Expr>, AllocError>
    ensures { IfOk result (λ e. expr_view e ≡ call_at place function (exprs_view arguments)) }
{
    let form = ExprForm::Call {
        function,
        arguments,
    };
    placed(alloc, place, form)
}

// A library call.
fn library(
    alloc: Global,
    place: Place,
    call: LibraryCall,
    argument: Option<Boxed<Expr>>,
    text: Option<u32>,
) -> Result<Boxed<Expr>, AllocError>
    ensures { IfOk result (λ e. expr_view e ≡ library_at place call (trees_in (option_map expr_view argument)) text) }
{
    let form = ExprForm::Library {
        call,
        argument,
        text,
    };
    placed(alloc, place, form)
}

/// A copy of an expression.
///
/// Errors: there was not memory enough.
#[cycle(copies)]
pub fn copy_expr(alloc: Global, e: &Expr) -> Result<Boxed<Expr>, AllocError>
    ensures { IfOk result (λ copy. expr_view copy ≡ expr_view e.now) }
{
    let place = e.place;
    match &e.form {
        ExprForm::Number(word) => placed(alloc, place, ExprForm::Number(*word)),
        ExprForm::Truth(truth) => placed(alloc, place, ExprForm::Truth(*truth)),
        ExprForm::Null => placed(alloc, place, ExprForm::Null),
        ExprForm::Local(local) => placed(alloc, place, ExprForm::Local(*local)),
        ExprForm::ResultValue => placed(alloc, place, ExprForm::ResultValue),
        ExprForm::Unary(op, a) => {
            let a = copy_expr(alloc, a.get())?;
            placed(alloc, place, ExprForm::Unary(*op, a))
        }
        ExprForm::Binary(op, a, b) => {
            let (a, b) = (copy_expr(alloc, a.get())?, copy_expr(alloc, b.get())?);
            placed(alloc, place, ExprForm::Binary(*op, a, b))
        }
        ExprForm::Both(a, b) => {
            let (a, b) = (copy_expr(alloc, a.get())?, copy_expr(alloc, b.get())?);
            placed(alloc, place, ExprForm::Both(a, b))
        }
        ExprForm::Either(a, b) => {
            let (a, b) = (copy_expr(alloc, a.get())?, copy_expr(alloc, b.get())?);
            placed(alloc, place, ExprForm::Either(a, b))
        }
        ExprForm::Choose(a, b, c) => {
            let a = copy_expr(alloc, a.get())?;
            let b = copy_expr(alloc, b.get())?;
            let c = copy_expr(alloc, c.get())?;
            placed(alloc, place, ExprForm::Choose(a, b, c))
        }
        ExprForm::Read {
            base,
            of_struct,
            field,
        } => {
            let base = copy_expr(alloc, base.get())?;
            read(alloc, place, base, *of_struct, *field)
        }
        ExprForm::Call {
            function,
            arguments,
        } => {
            let arguments = copy_exprs(alloc, arguments.as_slice())?;
            call_of(alloc, place, *function, arguments)
        }
        ExprForm::Library {
            call,
            argument,
            text,
        } => {
            let argument = copy_argument(alloc, argument)?;
            library(alloc, place, *call, argument, *text)
        }
        ExprForm::Alloc(of_struct) => placed(alloc, place, ExprForm::Alloc(*of_struct)),
    }
}

/// Copies of expressions.
///
/// Errors: there was not memory enough.
#[cycle(copies)]
pub fn copy_exprs(alloc: Global, es: &[Expr]) -> Result<Items<Expr>, AllocError>
    ensures { IfOk result (λ copies. map expr_view copies ≡ map expr_view es.now) }
{
    let mut copies = Items::new(alloc);
    for e in es {
        let copy = copy_expr(alloc, e)?;
        copies.push(copy.into_inner())?;
    }
    Ok(copies)
}

#[cycle(copies)]
fn copy_argument(
    alloc: Global,
    argument: &Option<Boxed<Expr>>,
) -> Result<Option<Boxed<Expr>>, AllocError>
    ensures { IfOk result (λ copy. option_map expr_view copy ≡ option_map expr_view argument.now) }
{
    match argument {
        None => Ok(None),
        Some(e) => Ok(Some(copy_expr(alloc, e.get())?)),
    }
}
