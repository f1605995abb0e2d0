//! Whether a `?` stands in a function.

ghost use Rattle.std.specs.Prelude.{◌≡◌};
ghost use Rattle.std.specs.Option.{option_map};
ghost use Rattle.gc0_tree.specs.Views.{stmt_view, stmts_view, stmts_in, function_view};
ghost use Rattle.c0_meaning.specs.Precision.{has_open, any_open, is_open};

use gc0_tree::{Function, Note, Stmt, StmtForm};
use sqlite_items::Boxed;

/// Whether a `?` stands in a function's clauses, invariants or asserts.
pub fn is_open(function: &Function) -> bool
    ensures { result ≡ is_open (function_view function.now) }
{
    function.before.imprecise
        || function.after.imprecise
        || stmts_are_open(function.body.as_slice())
}

#[cycle(open_stmts)]
fn stmts_are_open(ss: &[Stmt]) -> bool
    ensures { result ≡ any_open (stmts_view ss.now) }
{
    for s in ss {
        if stmt_is_open(s) {
            return true;
        }
    }
    false
}

#[cycle(open_stmts)]
fn stmt_is_open(s: &Stmt) -> bool
    ensures { result ≡ has_open (stmt_view s.now) }
{
    match &s.form {
        StmtForm::Block(ss) => stmts_are_open(ss.as_slice()),
        StmtForm::If {
            condition: _,
            yes,
            no,
        } => stmt_is_open(yes.get()) || part_is_open(no),
        StmtForm::While {
            invariant,
            test: _,
            body,
        } => invariant.imprecise || stmt_is_open(body.get()),
        StmtForm::For {
            first,
            test: _,
            last,
            invariant,
            body,
        } => {
            invariant.imprecise
                || part_is_open(first)
                || part_is_open(last)
                || stmt_is_open(body.get())
        }
        StmtForm::Note(Note::Assert(formula)) => formula.imprecise,
        _ => false,
    }
}

#[cycle(open_stmts)]
fn part_is_open(part: &Option<Boxed<Stmt>>) -> bool
    ensures { result ≡ any_open (stmts_in (option_map stmt_view part.now)) }
{
    match part {
        None => false,
        Some(s) => stmt_is_open(s.get()),
    }
}
