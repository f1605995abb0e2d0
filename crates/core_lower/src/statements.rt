//! The code of statements.

ghost use Rattle.std.specs.Prelude.{◌≡◌, length, IfOk, OnOk};
ghost use Rattle.std.specs.Option.{option_map};
ghost use Rattle.gc0_tree.specs.Views.{stmt_view, stmts_view, stmts_in};
ghost use Rattle.core_tree.specs.CoreTree.{no_code};
ghost use Rattle.core_tree.specs.CoreViews.{code_view};
ghost use Rattle.lowering_laws.specs.Statements.{stmt_next, stmts_next, stmt_code, stmts_code};
ghost use Rattle.lowering_laws.specs.Tables.{stmt_decisions, stmts_decisions, stmt_placed, stmts_placed};
ghost use Rattle.core_expressions.specs.Writing.{IsWithin, program_of, function_of, places_of, target_of};
ghost use Rattle.core_lower.specs.Parts.{IsNumbered, AreWritten, IsStmt, AreStmts};

use crate::loops::{close_if, close_loop, lower_condition, lower_head};
use crate::notes::lower_note;
use crate::simple::{
    lower_assert, lower_assigned, lower_declared, lower_plain, lower_raise, lower_return,
};
use crate::writes::{Field, lower_written};
use core_expressions::{Within, Written, close, open};
use core_tree::CoreStmt;
use gc0_tree::{Stmt, StmtForm};
use sqlite_items::{Boxed, Items};
use std::alloc::{AllocError, Global};

// Writes the code of a statement, with its step first.
#[cycle(statements)]
fn lower_stmt(
    alloc: Global,
    within: &Within<'_>,
    out: &mut Written,
    s: &Stmt,
) -> Result<(), AllocError>
    requires within { IsWithin within.now }
    requires number { IsNumbered within.now }
    ensures { OnOk result (IsStmt within.now out.old out.new (stmt_view s.now)) }
{
    match &s.form {
        StmtForm::Declare { local, value } => lower_declared(within, out, s.place, *local, value),
        StmtForm::Assign {
            local,
            op,
            op_place,
            value,
        } => lower_assigned(within, out, s.place, *local, *op, *op_place, value),
        StmtForm::Write {
            base,
            of_struct,
            field,
            arrow,
            op,
            op_place,
            value,
        } => {
            let field = Field {
                of_struct: *of_struct,
                field: *field,
                arrow: *arrow,
            };
            lower_written(within, out, s.place, base, field, *op, *op_place, value)
        }
        StmtForm::Plain(e) => lower_plain(within, out, s.place, e),
        StmtForm::Block(ss) => lower_stmts(alloc, within, out, ss.as_slice()),
        StmtForm::If { condition, yes, no } => {
            let test = lower_condition(within, out, s.place, condition)?;
            let these = lower_inner(alloc, within, out, yes.get())?;
            let those = lower_inner_part(alloc, within, out, no)?;
            close_if(out, test, these, those)
        }
        StmtForm::While {
            invariant,
            test,
            body,
        } => {
            let head = lower_head(alloc, within, out, s.place, invariant, test)?;
            let turn = lower_inner(alloc, within, out, body.get())?;
            close_loop(alloc, within, out, s.place, invariant, head, turn)
        }
        StmtForm::For {
            first,
            test,
            last,
            invariant,
            body,
        } => {
            lower_part(alloc, within, out, first)?;
            let head = lower_head(alloc, within, out, s.place, invariant, test)?;
            let outer = open(alloc, out);
            lower_stmt(alloc, within, out, body.get())?;
            lower_part(alloc, within, out, last)?;
            let turn = close(out, outer);
            close_loop(alloc, within, out, s.place, invariant, head, turn)
        }
        StmtForm::Return(value) => lower_return(within, out, s.place, value),
        StmtForm::Assert(e) => lower_assert(within, out, s.place, e),
        StmtForm::Raise(text) => lower_raise(within, out, s.place, *text),
        StmtForm::Note(note) => lower_note(alloc, within, out, s.place, note),
    }
}

/// Writes the code of statements, each with its step first.
///
/// Errors: there was not memory enough, or a number would be 2^32 or more.
#[cycle(statements)]
pub fn lower_stmts(
    alloc: Global,
    within: &Within<'_>,
    out: &mut Written,
    ss: &[Stmt],
) -> Result<(), AllocError>
    requires within { IsWithin within.now }
    requires number { IsNumbered within.now }
    ensures { OnOk result (AreStmts within.now out.old out.new (stmts_view ss.now)) }
{
    for s in ss {
        lower_stmt(alloc, within, out, s)?;
    }
    Ok(())
}

// The same of a part that may be absent.
#[cycle(statements)]
fn lower_part(
    alloc: Global,
    within: &Within<'_>,
    out: &mut Written,
    part: &Option<Boxed<Stmt>>,
) -> Result<(), AllocError>
    requires within { IsWithin within.now }
    requires number { IsNumbered within.now }
    ensures { OnOk result (AreStmts within.now out.old out.new (stmts_in (option_map stmt_view part.now))) }
{
    match part {
        None => Ok(()),
        Some(s) => lower_stmt(alloc, within, out, s.get()),
    }
}

// The code of a statement, in a list of its own.
#[cycle(statements)]
fn lower_inner(
    alloc: Global,
    within: &Within<'_>,
    out: &mut Written,
    s: &Stmt,
) -> Result<Items<CoreStmt>, AllocError>
    requires within { IsWithin within.now }
    requires number { IsNumbered within.now }
    ensures code { IfOk result (λ body. code_view body ≡ stmt_code (program_of within.now) (function_of within.now) (target_of within.now) (length out.old.decisions) (stmt_view s.now)) }
    ensures written { OnOk result (AreWritten out.old out.new (stmt_next (program_of within.now) (function_of within.now) (length out.old.decisions) (stmt_view s.now)) no_code (stmt_decisions (program_of within.now) (function_of within.now) (places_of within.now) (stmt_view s.now)) (stmt_placed (places_of within.now) (stmt_view s.now))) }
{
    let outer = open(alloc, out);
    lower_stmt(alloc, within, out, s)?;
    Ok(close(out, outer))
}

// The same of a part that may be absent.
#[cycle(statements)]
fn lower_inner_part(
    alloc: Global,
    within: &Within<'_>,
    out: &mut Written,
    part: &Option<Boxed<Stmt>>,
) -> Result<Items<CoreStmt>, AllocError>
    requires within { IsWithin within.now }
    requires number { IsNumbered within.now }
    ensures code { IfOk result (λ body. code_view body ≡ stmts_code (program_of within.now) (function_of within.now) (target_of within.now) (length out.old.decisions) (stmts_in (option_map stmt_view part.now))) }
    ensures written { OnOk result (AreWritten out.old out.new (stmts_next (program_of within.now) (function_of within.now) (length out.old.decisions) (stmts_in (option_map stmt_view part.now))) no_code (stmts_decisions (program_of within.now) (function_of within.now) (places_of within.now) (stmts_in (option_map stmt_view part.now))) (stmts_placed (places_of within.now) (stmts_in (option_map stmt_view part.now)))) }
{
    let outer = open(alloc, out);
    lower_part(alloc, within, out, part)?;
    Ok(close(out, outer))
}
