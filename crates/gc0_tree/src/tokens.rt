//! The tokens of a kind of site, in the order of a walk over the tree.

ghost use Rattle.std.specs.Prelude.{◌≡◌, ◌++◌, OnOk, IfOk};
ghost use Rattle.std.specs.Option.{option_map};
ghost use Rattle.gc0_tree.specs.Sites.{may_fault, reads_input, token_if, is_requires, is_ensures, is_head, is_assert, is_fold, is_unfold, is_access, is_trap, tree_tokens, trees_tokens, op_tokens, write_tokens, stmt_tokens, stmts_tokens, tokens};
ghost use Rattle.gc0_tree.specs.Views.{expr_view, exprs_view, expr_in, trees_in, stmt_view, stmts_view, stmts_in, note_form, function_view};

use crate::{Expr, ExprForm, ExprOp, Function, LibraryCall, Note, Stmt, StmtForm};
use gc0_base::{Kind, Place};
use sqlite_items::Boxed;
use std::alloc::{AllocError, Global};

/// The places of all tokens of a kind in a function.
pub fn places_of(alloc: Global, function: &Function, kind: Kind) -> Result<Vec<Place>, AllocError>
    ensures { IfOk result (λ v. v.items ≡ tokens (function_view function.now) kind) }
{
    let mut places = Vec::new(alloc);
    let falls_through = function.result.is_none();
    push_if(
        &mut places,
        of_returns(kind) && falls_through,
        function.close,
    )?;
    push_stmts(&mut places, kind, function.body.as_slice())?;
    Ok(places)
}

fn push_if(places: &mut Vec<Place>, there: bool, place: Place) -> Result<(), AllocError>
    ensures { OnOk result (places.new.items ≡ places.old.items ++ token_if there place) }
{
    if there {
        places.push(place)?;
    }
    Ok(())
}

fn of_calls(kind: Kind) -> bool
    ensures { result ≡ is_requires kind }
{
    matches!(kind, Kind::Requires)
}

fn of_returns(kind: Kind) -> bool
    ensures { result ≡ is_ensures kind }
{
    matches!(kind, Kind::Ensures)
}

fn of_loops(kind: Kind) -> bool
    ensures { result ≡ is_head kind }
{
    matches!(kind, Kind::Entry | Kind::Again)
}

fn of_asserts(kind: Kind) -> bool
    ensures { result ≡ is_assert kind }
{
    matches!(kind, Kind::Assert)
}

fn of_folds(kind: Kind) -> bool
    ensures { result ≡ is_fold kind }
{
    matches!(kind, Kind::Fold)
}

fn of_unfolds(kind: Kind) -> bool
    ensures { result ≡ is_unfold kind }
{
    matches!(kind, Kind::Unfold)
}

fn of_accesses(kind: Kind) -> bool
    ensures { result ≡ is_access kind }
{
    matches!(kind, Kind::Access)
}

fn of_traps(kind: Kind) -> bool
    ensures { result ≡ is_trap kind }
{
    matches!(kind, Kind::Trap)
}

fn can_fault(op: ExprOp) -> bool
    ensures { result ≡ may_fault op }
{
    matches!(op, ExprOp::Div | ExprOp::Rem | ExprOp::Shl | ExprOp::Shr)
}

fn takes_input(call: LibraryCall) -> bool
    ensures { result ≡ reads_input call }
{
    matches!(call, LibraryCall::ReadInt)
}

#[cycle(expr_tokens)]
fn push_expr(places: &mut Vec<Place>, kind: Kind, e: &Expr) -> Result<(), AllocError>
    ensures { OnOk result (places.new.items ≡ places.old.items ++ tree_tokens kind (expr_view e.now)) }
{
    match &e.form {
        ExprForm::Number(_) => Ok(()),
        ExprForm::Truth(_) => Ok(()),
        ExprForm::Null => Ok(()),
        ExprForm::Local(_) => Ok(()),
        ExprForm::ResultValue => Ok(()),
        ExprForm::Unary(_, a) => push_expr(places, kind, a.get()),
        ExprForm::Binary(op, a, b) => {
            push_if(places, of_traps(kind) && can_fault(*op), e.place)?;
            push_expr(places, kind, a.get())?;
            push_expr(places, kind, b.get())
        }
        ExprForm::Both(a, b) => {
            push_expr(places, kind, a.get())?;
            push_expr(places, kind, b.get())
        }
        ExprForm::Either(a, b) => {
            push_expr(places, kind, a.get())?;
            push_expr(places, kind, b.get())
        }
        ExprForm::Choose(a, b, c) => {
            push_expr(places, kind, a.get())?;
            push_expr(places, kind, b.get())?;
            push_expr(places, kind, c.get())
        }
        ExprForm::Read {
            base,
            of_struct: _,
            field: _,
        } => {
            push_if(places, of_accesses(kind), e.place)?;
            push_expr(places, kind, base.get())
        }
        ExprForm::Call {
            function: _,
            arguments,
        } => {
            push_if(places, of_calls(kind), e.place)?;
            push_exprs(places, kind, arguments.as_slice())
        }
        ExprForm::Library {
            call,
            argument,
            text: _,
        } => {
            push_if(places, of_traps(kind) && takes_input(*call), e.place)?;
            push_argument(places, kind, argument)
        }
        ExprForm::Alloc(_) => Ok(()),
    }
}

#[cycle(expr_tokens)]
fn push_exprs(places: &mut Vec<Place>, kind: Kind, es: &[Expr]) -> Result<(), AllocError>
    ensures { OnOk result (places.new.items ≡ places.old.items ++ trees_tokens kind (exprs_view es.now)) }
{
    for e in es {
        push_expr(places, kind, e)?;
    }
    Ok(())
}

#[cycle(expr_tokens)]
fn push_argument(
    places: &mut Vec<Place>,
    kind: Kind,
    argument: &Option<Boxed<Expr>>,
) -> Result<(), AllocError>
    ensures { OnOk result (places.new.items ≡ places.old.items ++ trees_tokens kind (trees_in (option_map expr_view argument.now))) }
{
    match argument {
        None => Ok(()),
        Some(e) => push_expr(places, kind, e.get()),
    }
}

fn push_value(places: &mut Vec<Place>, kind: Kind, value: &Option<Expr>) -> Result<(), AllocError>
    ensures { OnOk result (places.new.items ≡ places.old.items ++ trees_tokens kind (expr_in value.now)) }
{
    match value {
        None => Ok(()),
        Some(e) => push_expr(places, kind, e),
    }
}

fn push_assign(
    places: &mut Vec<Place>,
    kind: Kind,
    op: Option<ExprOp>,
    place: Place,
    value: &Expr,
) -> Result<(), AllocError>
    ensures { OnOk result (places.new.items ≡ places.old.items ++ (op_tokens kind op place ++ tree_tokens kind (expr_view value.now))) }
{
    push_op(places, kind, op, place)?;
    push_expr(places, kind, value)
}

fn push_accesses(
    places: &mut Vec<Place>,
    kind: Kind,
    arrow: Place,
    op: Option<ExprOp>,
) -> Result<(), AllocError>
    ensures { OnOk result (places.new.items ≡ places.old.items ++ write_tokens kind op arrow) }
{
    push_if(places, of_accesses(kind), arrow)?;
    push_if(places, of_accesses(kind) && op.is_some(), arrow)
}

fn push_write(
    places: &mut Vec<Place>,
    kind: Kind,
    op: Option<ExprOp>,
    place: Place,
    base: &Expr,
    value: &Expr,
) -> Result<(), AllocError>
    ensures { OnOk result (places.new.items ≡ places.old.items ++ (op_tokens kind op place ++ (tree_tokens kind (expr_view base.now) ++ tree_tokens kind (expr_view value.now)))) }
{
    push_op(places, kind, op, place)?;
    push_expr(places, kind, base)?;
    push_expr(places, kind, value)
}

fn push_head(
    places: &mut Vec<Place>,
    kind: Kind,
    place: Place,
    test: &Expr,
) -> Result<(), AllocError>
    ensures { OnOk result (places.new.items ≡ places.old.items ++ (token_if (is_head kind) place ++ tree_tokens kind (expr_view test.now))) }
{
    push_if(places, of_loops(kind), place)?;
    push_expr(places, kind, test)
}

fn push_op(
    places: &mut Vec<Place>,
    kind: Kind,
    op: Option<ExprOp>,
    place: Place,
) -> Result<(), AllocError>
    ensures { OnOk result (places.new.items ≡ places.old.items ++ op_tokens kind op place) }
{
    match op {
        None => Ok(()),
        Some(o) => push_if(places, of_traps(kind) && can_fault(o), place),
    }
}

fn push_note(
    places: &mut Vec<Place>,
    kind: Kind,
    note: &Note,
    place: Place,
) -> Result<(), AllocError>
    ensures { OnOk result (places.new.items ≡ places.old.items ++ stmt_tokens kind (note_form note.now place)) }
{
    match note {
        Note::Assert(_) => push_if(places, of_asserts(kind), place),
        Note::Fold(_) => push_if(places, of_folds(kind), place),
        Note::Unfold(_) => push_if(places, of_unfolds(kind), place),
    }
}

#[cycle(stmt_tokens)]
fn push_stmt(places: &mut Vec<Place>, kind: Kind, s: &Stmt) -> Result<(), AllocError>
    ensures { OnOk result (places.new.items ≡ places.old.items ++ stmt_tokens kind (stmt_view s.now)) }
{
    match &s.form {
        StmtForm::Declare { local: _, value } => push_value(places, kind, value),
        StmtForm::Assign {
            local: _,
            op,
            op_place,
            value,
        } => push_assign(places, kind, *op, *op_place, value),
        StmtForm::Write {
            base,
            of_struct: _,
            field: _,
            arrow,
            op,
            op_place,
            value,
        } => {
            push_accesses(places, kind, *arrow, *op)?;
            push_write(places, kind, *op, *op_place, base, value)
        }
        StmtForm::Plain(e) => push_expr(places, kind, e),
        StmtForm::Block(ss) => push_stmts(places, kind, ss.as_slice()),
        StmtForm::If { condition, yes, no } => {
            push_expr(places, kind, condition)?;
            push_stmt(places, kind, yes.get())?;
            push_part(places, kind, no)
        }
        StmtForm::While {
            invariant: _,
            test,
            body,
        } => {
            push_head(places, kind, s.place, test)?;
            push_stmt(places, kind, body.get())
        }
        StmtForm::For {
            first,
            test,
            last,
            invariant: _,
            body,
        } => {
            push_if(places, of_loops(kind), s.place)?;
            push_part(places, kind, first)?;
            push_expr(places, kind, test)?;
            push_part(places, kind, last)?;
            push_stmt(places, kind, body.get())
        }
        StmtForm::Return(value) => push_return(places, kind, s.place, value),
        StmtForm::Assert(e) => push_assertion(places, kind, s.place, e),
        StmtForm::Raise(_) => push_if(places, of_traps(kind), s.place),
        StmtForm::Note(note) => push_note(places, kind, note, s.place),
    }
}

fn push_return(
    places: &mut Vec<Place>,
    kind: Kind,
    place: Place,
    value: &Option<Expr>,
) -> Result<(), AllocError>
    ensures { OnOk result (places.new.items ≡ places.old.items ++ (token_if (is_ensures kind) place ++ trees_tokens kind (expr_in value.now))) }
{
    push_if(places, of_returns(kind), place)?;
    push_value(places, kind, value)
}

fn push_assertion(
    places: &mut Vec<Place>,
    kind: Kind,
    place: Place,
    e: &Expr,
) -> Result<(), AllocError>
    ensures { OnOk result (places.new.items ≡ places.old.items ++ (token_if (is_trap kind) place ++ tree_tokens kind (expr_view e.now))) }
{
    push_if(places, of_traps(kind), place)?;
    push_expr(places, kind, e)
}

#[cycle(stmt_tokens)]
fn push_stmts(places: &mut Vec<Place>, kind: Kind, ss: &[Stmt]) -> Result<(), AllocError>
    ensures { OnOk result (places.new.items ≡ places.old.items ++ stmts_tokens kind (stmts_view ss.now)) }
{
    for s in ss {
        push_stmt(places, kind, s)?;
    }
    Ok(())
}

#[cycle(stmt_tokens)]
fn push_part(
    places: &mut Vec<Place>,
    kind: Kind,
    part: &Option<Boxed<Stmt>>,
) -> Result<(), AllocError>
    ensures { OnOk result (places.new.items ≡ places.old.items ++ stmts_tokens kind (stmts_in (option_map stmt_view part.now))) }
{
    match part {
        None => Ok(()),
        Some(s) => push_stmt(places, kind, s.get()),
    }
}
