//! The most temporaries that one statement or one test of a function uses.

ghost use Rattle.std.specs.Prelude.{◌≡◌, IfOk, OnOk};
ghost use Rattle.std.specs.Option.{option_map};
ghost use Rattle.gc0_tree.specs.declared.Shape.{Shape as Shape'};
ghost use Rattle.gc0_tree.specs.Views.{expr_view, expr_in, stmt_view, stmts_view, stmts_in, function_view, program_view};
ghost use Rattle.lowering_laws.specs.Counts.{fresh, counted, first_counted};
ghost use Rattle.lowering_laws.specs.Statements.{room_of, loaded, write_counted, stmt_uses, stmts_use};
ghost use Rattle.lowering_laws.specs.Lowering.{uses};
ghost use Rattle.temp_counts.specs.Most.{most_in};
ghost use Rattle.temp_counts.specs.Counting.{Counting, Using};

use crate::counting::count_expr;
use crate::most::Most;
use crate::tally::Tally;
use gc0_tree::{Expr, ExprOp, Function, Program, Shape, Stmt, StmtForm};
use sqlite_items::Boxed;
use std::alloc::{AllocError, Global};

/// The most temporaries of each shape that one statement or one test of a function uses.
///
/// Errors: there was not memory enough, or there are 2^32 - 1 temporaries of a shape.
pub fn most_used(alloc: Global, program: &Program, function: &Function) -> Result<Most, AllocError>
    ensures { IfOk result (λ m. (s : Shape') → most_in m s ≡ uses (program_view program.now) (function_view function.now) s) }
{
    let mut tally = Tally::new(alloc);
    count_stmts(&mut tally, program, function, function.body.as_slice())?;
    Ok(tally.most)
}

// A statement or a test that is one expression.
fn count_alone(
    tally: &mut Tally,
    program: &Program,
    function: &Function,
    e: &Expr,
) -> Result<(), AllocError>
    ensures { OnOk result (Using tally.old tally.new (counted (program_view program.now) (room_of (function_view function.now)) (fresh 0) (expr_view e.now)).used) }
{
    tally.clear();
    count_expr(tally, program, function, e)?;
    Ok(())
}

// A statement with a value that may be absent.
fn count_value(
    tally: &mut Tally,
    program: &Program,
    function: &Function,
    value: &Option<Expr>,
) -> Result<(), AllocError>
    ensures { OnOk result (Using tally.old tally.new (first_counted (program_view program.now) (room_of (function_view function.now)) (fresh 0) (expr_in value.now)).used) }
{
    match value {
        None => Ok(()),
        Some(e) => count_alone(tally, program, function, e),
    }
}

// A write by an operator has a temporary for what it reads.
fn hold_loaded(tally: &mut Tally, op: Option<ExprOp>) -> Result<(), AllocError>
    ensures { OnOk result (Counting tally.old tally.new (loaded op)) }
{
    match op {
        None => {}
        Some(_) => {
            tally.hold(Shape::Int)?;
        }
    }
    Ok(())
}

// A write through a pointer.
fn count_write(
    tally: &mut Tally,
    program: &Program,
    function: &Function,
    base: &Expr,
    op: Option<ExprOp>,
    value: &Expr,
) -> Result<(), AllocError>
    ensures { OnOk result (Using tally.old tally.new (write_counted (program_view program.now) (room_of (function_view function.now)) (fresh 0) (expr_view base.now) op (expr_view value.now)).used) }
{
    tally.clear();
    count_expr(tally, program, function, base)?;
    hold_loaded(tally, op)?;
    count_expr(tally, program, function, value)?;
    Ok(())
}

#[cycle(count_stmts)]
fn count_stmt(
    tally: &mut Tally,
    program: &Program,
    function: &Function,
    s: &Stmt,
) -> Result<(), AllocError>
    ensures { OnOk result (Using tally.old tally.new (stmt_uses (program_view program.now) (room_of (function_view function.now)) (stmt_view s.now))) }
{
    match &s.form {
        StmtForm::Declare { local: _, value } => count_value(tally, program, function, value),
        StmtForm::Assign {
            local: _,
            op: _,
            op_place: _,
            value,
        } => count_alone(tally, program, function, value),
        StmtForm::Write {
            base,
            of_struct: _,
            field: _,
            arrow: _,
            op,
            op_place: _,
            value,
        } => count_write(tally, program, function, base, *op, value),
        StmtForm::Plain(e) => count_alone(tally, program, function, e),
        StmtForm::Block(ss) => count_stmts(tally, program, function, ss.as_slice()),
        StmtForm::If { condition, yes, no } => {
            count_alone(tally, program, function, condition)?;
            count_stmt(tally, program, function, yes.get())?;
            count_part(tally, program, function, no)
        }
        StmtForm::While {
            invariant: _,
            test,
            body,
        } => {
            count_alone(tally, program, function, test)?;
            count_stmt(tally, program, function, body.get())
        }
        StmtForm::For {
            first,
            test,
            last,
            invariant: _,
            body,
        } => {
            count_part(tally, program, function, first)?;
            count_alone(tally, program, function, test)?;
            count_stmt(tally, program, function, body.get())?;
            count_part(tally, program, function, last)
        }
        StmtForm::Return(value) => count_value(tally, program, function, value),
        StmtForm::Assert(e) => count_alone(tally, program, function, e),
        StmtForm::Raise(_) => Ok(()),
        StmtForm::Note(_) => Ok(()),
    }
}

#[cycle(count_stmts)]
fn count_stmts(
    tally: &mut Tally,
    program: &Program,
    function: &Function,
    ss: &[Stmt],
) -> Result<(), AllocError>
    ensures { OnOk result (Using tally.old tally.new (stmts_use (program_view program.now) (room_of (function_view function.now)) (stmts_view ss.now))) }
{
    for s in ss {
        count_stmt(tally, program, function, s)?;
    }
    Ok(())
}

#[cycle(count_stmts)]
fn count_part(
    tally: &mut Tally,
    program: &Program,
    function: &Function,
    part: &Option<Boxed<Stmt>>,
) -> Result<(), AllocError>
    ensures { OnOk result (Using tally.old tally.new (stmts_use (program_view program.now) (room_of (function_view function.now)) (stmts_in (option_map stmt_view part.now)))) }
{
    match part {
        None => Ok(()),
        Some(s) => count_stmt(tally, program, function, s.get()),
    }
}
