//! The functions that are called in statements.

ghost use Rattle.std.specs.Prelude.{◌≡◌, ℕ, ◌||◌, eqb, OnOk};
ghost use Rattle.std.specs.Option.{option_map};
ghost use Rattle.gc0_tree.specs.Views.{expr_view, exprs_view, expr_in, trees_in, stmt_view, stmts_view, stmts_in};
ghost use Rattle.c0_meaning.specs.Precision.{tree_calls, trees_call, stmt_calls, stmts_call};
ghost use Rattle.plain_functions.specs.Callers.{among};

use gc0_tree::{Expr, ExprForm, Stmt, StmtForm};
use sqlite_items::{Boxed, Items};
use std::alloc::AllocError;

#[cycle(called_exprs)]
fn add_expr(callees: &mut Items<u32>, e: &Expr) -> Result<(), AllocError>
    ensures { OnOk result ((g : ℕ) → among g callees.new ≡ (among g callees.old || tree_calls g (expr_view e.now))) }
{
    match &e.form {
        ExprForm::Number(_) => Ok(()),
        ExprForm::Truth(_) => Ok(()),
        ExprForm::Null => Ok(()),
        ExprForm::Local(_) => Ok(()),
        ExprForm::ResultValue => Ok(()),
        ExprForm::Unary(_, a) => add_expr(callees, a.get()),
        ExprForm::Binary(_, a, b) => {
            add_expr(callees, a.get())?;
            add_expr(callees, b.get())
        }
        ExprForm::Both(a, b) => {
            add_expr(callees, a.get())?;
            add_expr(callees, b.get())
        }
        ExprForm::Either(a, b) => {
            add_expr(callees, a.get())?;
            add_expr(callees, b.get())
        }
        ExprForm::Choose(a, b, c) => {
            add_expr(callees, a.get())?;
            add_expr(callees, b.get())?;
            add_expr(callees, c.get())
        }
        ExprForm::Read {
            base,
            of_struct: _,
            field: _,
        } => add_expr(callees, base.get()),
        ExprForm::Call {
            function,
            arguments,
        } => {
            add(callees, *function)?;
            add_exprs(callees, arguments.as_slice())
        }
        ExprForm::Library {
            call: _,
            argument,
            text: _,
        } => add_argument(callees, argument),
        ExprForm::Alloc(_) => Ok(()),
    }
}

fn add(callees: &mut Items<u32>, function: u32) -> Result<(), AllocError>
    ensures { OnOk result ((g : ℕ) → among g callees.new ≡ (among g callees.old || eqb function g)) }
{
    callees.push(function)
}

#[cycle(called_exprs)]
fn add_exprs(callees: &mut Items<u32>, es: &[Expr]) -> Result<(), AllocError>
    ensures { OnOk result ((g : ℕ) → among g callees.new ≡ (among g callees.old || trees_call g (exprs_view es.now))) }
{
    for e in es {
        add_expr(callees, e)?;
    }
    Ok(())
}

#[cycle(called_exprs)]
fn add_argument(callees: &mut Items<u32>, argument: &Option<Boxed<Expr>>) -> Result<(), AllocError>
    ensures { OnOk result ((g : ℕ) → among g callees.new ≡ (among g callees.old || trees_call g (trees_in (option_map expr_view argument.now)))) }
{
    match argument {
        None => Ok(()),
        Some(e) => add_expr(callees, e.get()),
    }
}

fn add_value(callees: &mut Items<u32>, value: &Option<Expr>) -> Result<(), AllocError>
    ensures { OnOk result ((g : ℕ) → among g callees.new ≡ (among g callees.old || trees_call g (expr_in value.now))) }
{
    match value {
        None => Ok(()),
        Some(e) => add_expr(callees, e),
    }
}

#[cycle(called_stmts)]
fn add_stmt(callees: &mut Items<u32>, s: &Stmt) -> Result<(), AllocError>
    ensures { OnOk result ((g : ℕ) → among g callees.new ≡ (among g callees.old || stmt_calls g (stmt_view s.now))) }
{
    match &s.form {
        StmtForm::Declare { local: _, value } => add_value(callees, value),
        StmtForm::Assign {
            local: _,
            op: _,
            op_place: _,
            value,
        } => add_expr(callees, value),
        StmtForm::Write {
            base,
            of_struct: _,
            field: _,
            arrow: _,
            op: _,
            op_place: _,
            value,
        } => {
            add_expr(callees, base)?;
            add_expr(callees, value)
        }
        StmtForm::Plain(e) => add_expr(callees, e),
        StmtForm::Block(ss) => add_stmts(callees, ss.as_slice()),
        StmtForm::If { condition, yes, no } => {
            add_expr(callees, condition)?;
            add_stmt(callees, yes.get())?;
            add_part(callees, no)
        }
        StmtForm::While {
            invariant: _,
            test,
            body,
        } => {
            add_expr(callees, test)?;
            add_stmt(callees, body.get())
        }
        StmtForm::For {
            first,
            test,
            last,
            invariant: _,
            body,
        } => {
            add_part(callees, first)?;
            add_expr(callees, test)?;
            add_part(callees, last)?;
            add_stmt(callees, body.get())
        }
        StmtForm::Return(value) => add_value(callees, value),
        StmtForm::Assert(e) => add_expr(callees, e),
        StmtForm::Raise(_) => Ok(()),
        StmtForm::Note(_) => Ok(()),
    }
}

/// Adds the numbers of the functions that are called in statements, from left to right.
///
/// Errors: there was not memory enough.
#[cycle(called_stmts)]
pub fn add_stmts(callees: &mut Items<u32>, ss: &[Stmt]) -> Result<(), AllocError>
    ensures { OnOk result ((g : ℕ) → among g callees.new ≡ (among g callees.old || stmts_call g (stmts_view ss.now))) }
{
    for s in ss {
        add_stmt(callees, s)?;
    }
    Ok(())
}

#[cycle(called_stmts)]
fn add_part(callees: &mut Items<u32>, part: &Option<Boxed<Stmt>>) -> Result<(), AllocError>
    ensures { OnOk result ((g : ℕ) → among g callees.new ≡ (among g callees.old || stmts_call g (stmts_in (option_map stmt_view part.now)))) }
{
    match part {
        None => Ok(()),
        Some(s) => add_stmt(callees, s.get()),
    }
}
