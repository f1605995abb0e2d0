//! The temporaries of expressions and statements, counted no further than one past the limit.

ghost use Rattle.std.specs.Prelude.{◌≡◌, ◌+◌, min};
ghost use Rattle.std.specs.Option.{option_map};
ghost use Rattle.gc0_base.specs.declared.limits.TheConstants.Limits as limits;
ghost use Rattle.gc0_tree.specs.Views.{expr_view, exprs_view, trees_in, expr_in, stmt_view, stmts_view, stmts_in};
ghost use Rattle.program_limits.specs.Counts.{temporaries, all_temporaries, stmt_temporaries, stmts_temporaries};

use gc0_base::Limits;
use gc0_tree::{Expr, ExprForm, Stmt, StmtForm};
use sqlite_items::Boxed;

fn sum(a: u32, b: u32) -> u32
    ensures { result ≡ min (a + b) (limits.TEMPORARIES + 1) }
{
    a.saturating_add(b).min(Limits::TEMPORARIES + 1)
}

#[cycle(temporaries)]
fn temporaries(e: &Expr) -> u32
    ensures { result ≡ min (temporaries (expr_view e.now)) (limits.TEMPORARIES + 1) }
{
    match &e.form {
        ExprForm::Number(_) => 0,
        ExprForm::Truth(_) => 0,
        ExprForm::Null => 0,
        ExprForm::Local(_) => 0,
        ExprForm::ResultValue => 0,
        ExprForm::Unary(_, a) => sum(1, temporaries(a.get())),
        ExprForm::Binary(_, a, b) => sum(1, sum(temporaries(a.get()), temporaries(b.get()))),
        ExprForm::Both(a, b) => sum(1, sum(temporaries(a.get()), temporaries(b.get()))),
        ExprForm::Either(a, b) => sum(1, sum(temporaries(a.get()), temporaries(b.get()))),
        ExprForm::Choose(a, b, c) => {
            let branches = sum(temporaries(b.get()), temporaries(c.get()));
            sum(1, sum(temporaries(a.get()), branches))
        }
        ExprForm::Read {
            base,
            of_struct: _,
            field: _,
        } => sum(1, temporaries(base.get())),
        ExprForm::Call {
            function: _,
            arguments,
        } => sum(1, all_temporaries(arguments.as_slice())),
        ExprForm::Library {
            call: _,
            argument,
            text: _,
        } => sum(1, in_argument(argument)),
        ExprForm::Alloc(_) => 1,
    }
}

#[cycle(temporaries)]
fn all_temporaries(es: &[Expr]) -> u32
    ensures { result ≡ min (all_temporaries (exprs_view es.now)) (limits.TEMPORARIES + 1) }
{
    let mut count = 0;
    for e in es {
        count = sum(count, temporaries(e));
    }
    count
}

#[cycle(temporaries)]
fn in_argument(argument: &Option<Boxed<Expr>>) -> u32
    ensures { result ≡ min (all_temporaries (trees_in (option_map expr_view argument.now))) (limits.TEMPORARIES + 1) }
{
    match argument {
        None => 0,
        Some(e) => temporaries(e.get()),
    }
}

fn in_value(value: &Option<Expr>) -> u32
    ensures { result ≡ min (all_temporaries (expr_in value.now)) (limits.TEMPORARIES + 1) }
{
    match value {
        None => 0,
        Some(e) => temporaries(e),
    }
}

#[cycle(statements)]
fn in_statement(s: &Stmt) -> u32
    ensures { result ≡ min (stmt_temporaries (stmt_view s.now)) (limits.TEMPORARIES + 1) }
{
    match &s.form {
        StmtForm::Declare { local: _, value } => in_value(value),
        StmtForm::Assign {
            local: _,
            op: _,
            op_place: _,
            value,
        } => temporaries(value),
        StmtForm::Write {
            base,
            of_struct: _,
            field: _,
            arrow: _,
            op: _,
            op_place: _,
            value,
        } => sum(temporaries(base), temporaries(value)),
        StmtForm::Plain(e) => temporaries(e),
        StmtForm::Block(ss) => in_statements(ss.as_slice()),
        StmtForm::If { condition, yes, no } => {
            temporaries(condition).max(in_statement(yes.get()).max(in_part(no)))
        }
        StmtForm::While {
            invariant: _,
            test,
            body,
        } => temporaries(test).max(in_statement(body.get())),
        StmtForm::For {
            first,
            test,
            last,
            invariant: _,
            body,
        } => in_part(first).max(temporaries(test).max(in_part(last).max(in_statement(body.get())))),
        StmtForm::Return(value) => in_value(value),
        StmtForm::Assert(e) => temporaries(e),
        StmtForm::Raise(_) => 0,
        StmtForm::Note(_) => 0,
    }
}

/// The most temporaries that one of these statements has, or one more than the limit where that is
/// less.
#[cycle(statements)]
pub fn in_statements(ss: &[Stmt]) -> u32
    ensures { result ≡ min (stmts_temporaries (stmts_view ss.now)) (limits.TEMPORARIES + 1) }
{
    let mut most = 0;
    for s in ss {
        most = most.max(in_statement(s));
    }
    most
}

#[cycle(statements)]
fn in_part(part: &Option<Boxed<Stmt>>) -> u32
    ensures { result ≡ min (stmts_temporaries (stmts_in (option_map stmt_view part.now))) (limits.TEMPORARIES + 1) }
{
    match part {
        None => 0,
        Some(s) => in_statement(s.get()),
    }
}
