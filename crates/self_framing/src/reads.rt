//! The reads of formulas that have no permission to their left.

#![tactic(auto, using(crate::specs::Least::least_both))]

ghost use Rattle.std.specs.Prelude.{◌≡◌, [], fold, map};
ghost use Rattle.std.specs.Option.{option_map};
ghost use Rattle.gc0_tree.specs.Tree.{Conjuncts, no_parts};
ghost use Rattle.gc0_tree.specs.Views.{expr_view, exprs_view, trees_in, conjunct_view, conjuncts_view, formula_view, stmt_view, stmts_view, stmts_in, function_view};
ghost use Rattle.c0_meaning.specs.Framing.{unframed, all_unframed, parts_unframed, formula_unframed, stmt_unframed, stmts_unframed, function_unframed};
ghost use Rattle.self_framing.specs.declared.fault.FrameFault.TheVariants as fault;
ghost use Rattle.self_framing.specs.FrameFaults.{earlier};
ghost use Rattle.self_framing.specs.Left.{permitted, behind};

use crate::fault::{FrameFault, report_read};
use crate::left::{Left, is_permitted};
use gc0_tree::{Conjunct, Expr, ExprForm, Formula, Function, Stmt, StmtForm};
use sqlite_items::Boxed;

// The reads of an expression.
#[cycle(expression)]
fn read_expr(e: &Expr, left: &Left<'_>, least: &mut Option<FrameFault>)
    ensures { least.new ≡ fold earlier least.old (map fault.NotFramed (unframed (permitted left.now) (expr_view e.now))) }
{
    match &e.form {
        ExprForm::Number(_) => {}
        ExprForm::Truth(_) => {}
        ExprForm::Null => {}
        ExprForm::Local(_) => {}
        ExprForm::ResultValue => {}
        ExprForm::Unary(_, a) => read_expr(a.get(), left, least),
        ExprForm::Binary(_, a, b) => {
            read_expr(a.get(), left, least);
            read_expr(b.get(), left, least);
        }
        ExprForm::Both(a, b) => {
            read_expr(a.get(), left, least);
            read_expr(b.get(), left, least);
        }
        ExprForm::Either(a, b) => {
            read_expr(a.get(), left, least);
            read_expr(b.get(), left, least);
        }
        ExprForm::Choose(a, b, c) => {
            read_expr(a.get(), left, least);
            read_expr(b.get(), left, least);
            read_expr(c.get(), left, least);
        }
        ExprForm::Read {
            base,
            of_struct: _,
            field,
        } => {
            read_expr(base.get(), left, least);
            report_read(least, is_permitted(left, base.get(), *field), e.place);
        }
        ExprForm::Call {
            function: _,
            arguments,
        } => read_exprs(arguments.as_slice(), left, least),
        ExprForm::Library {
            call: _,
            argument,
            text: _,
        } => read_argument(argument, left, least),
        ExprForm::Alloc(_) => {}
    }
}

#[cycle(expression)]
fn read_exprs(es: &[Expr], left: &Left<'_>, least: &mut Option<FrameFault>)
    ensures { least.new ≡ fold earlier least.old (map fault.NotFramed (all_unframed (permitted left.now) (exprs_view es.now))) }
{
    for e in es {
        read_expr(e, left, least);
    }
}

#[cycle(expression)]
fn read_argument(argument: &Option<Boxed<Expr>>, left: &Left<'_>, least: &mut Option<FrameFault>)
    ensures { least.new ≡ fold earlier least.old (map fault.NotFramed (all_unframed (permitted left.now) (trees_in (option_map expr_view argument.now)))) }
{
    match argument {
        None => {}
        Some(e) => read_expr(e.get(), left, least),
    }
}

// The reads of a conjunct. What it permits is to the left of those that follow.
#[cycle(conjuncts)]
fn read_part<'a>(part: &'a Conjunct, left: &'a Left<'a>, least: &mut Option<FrameFault>)
    ensures { (rest : Conjuncts) → fold earlier least.new (map fault.NotFramed (parts_unframed (behind (permitted left.now) (conjunct_view part.now no_parts)) rest)) ≡ fold earlier least.old (map fault.NotFramed (parts_unframed (permitted left.now) (conjunct_view part.now rest))) }
{
    match part {
        Conjunct::Value(e) => read_expr(e, left, least),
        Conjunct::Acc(e, _) => read_expr(e, left, least),
        Conjunct::Instance(_, _, arguments) => read_exprs(arguments.as_slice(), left, least),
        Conjunct::Choice(_, condition, these, those) => {
            read_expr(condition, left, least);
            read_parts(these.as_slice(), left, least);
            read_parts(those.as_slice(), left, least);
        }
    }
}

// The reads of conjuncts from left to right.
#[cycle(conjuncts)]
fn read_parts<'a>(parts: &'a [Conjunct], left: &'a Left<'a>, least: &mut Option<FrameFault>)
    ensures { least.new ≡ fold earlier least.old (map fault.NotFramed (parts_unframed (permitted left.now) (conjuncts_view parts.now))) }
{
    let mut number = 0;
    for part in parts {
        read_part(part, &Left::Behind(&parts[..number], left), least);
        number += 1;
    }
}

/// The reads of the body of a predicate.
pub fn read_body(parts: &[Conjunct], least: &mut Option<FrameFault>)
    ensures { least.new ≡ fold earlier least.old (map fault.NotFramed (parts_unframed [] (conjuncts_view parts.now))) }
{
    read_parts(parts, &Left::Nothing, least);
}

fn read_formula(formula: &Formula, least: &mut Option<FrameFault>)
    ensures { least.new ≡ fold earlier least.old (map fault.NotFramed (formula_unframed (formula_view formula.now))) }
{
    if !formula.imprecise {
        read_body(formula.parts.as_slice(), least);
    }
}

// The reads of the invariants of a statement.
#[cycle(statement)]
fn read_stmt(s: &Stmt, least: &mut Option<FrameFault>)
    ensures { least.new ≡ fold earlier least.old (map fault.NotFramed (stmt_unframed (stmt_view s.now))) }
{
    match &s.form {
        StmtForm::Declare { local: _, value: _ } => {}
        StmtForm::Assign {
            local: _,
            op: _,
            op_place: _,
            value: _,
        } => {}
        StmtForm::Write {
            base: _,
            of_struct: _,
            field: _,
            arrow: _,
            op: _,
            op_place: _,
            value: _,
        } => {}
        StmtForm::Plain(_) => {}
        StmtForm::Block(ss) => read_stmts(ss.as_slice(), least),
        StmtForm::If {
            condition: _,
            yes,
            no,
        } => {
            read_stmt(yes.get(), least);
            read_optional(no, least);
        }
        StmtForm::While {
            invariant,
            test: _,
            body,
        } => {
            read_formula(invariant, least);
            read_stmt(body.get(), least);
        }
        StmtForm::For {
            first,
            test: _,
            last,
            invariant,
            body,
        } => {
            read_optional(first, least);
            read_optional(last, least);
            read_formula(invariant, least);
            read_stmt(body.get(), least);
        }
        StmtForm::Return(_) => {}
        StmtForm::Assert(_) => {}
        StmtForm::Raise(_) => {}
        StmtForm::Note(_) => {}
    }
}

#[cycle(statement)]
fn read_stmts(ss: &[Stmt], least: &mut Option<FrameFault>)
    ensures { least.new ≡ fold earlier least.old (map fault.NotFramed (stmts_unframed (stmts_view ss.now))) }
{
    for s in ss {
        read_stmt(s, least);
    }
}

#[cycle(statement)]
fn read_optional(part: &Option<Boxed<Stmt>>, least: &mut Option<FrameFault>)
    ensures { least.new ≡ fold earlier least.old (map fault.NotFramed (stmts_unframed (stmts_in (option_map stmt_view part.now)))) }
{
    match part {
        None => {}
        Some(s) => read_stmt(s.get(), least),
    }
}

/// The reads of the contract and the invariants of a function.
pub fn read_function(f: &Function, least: &mut Option<FrameFault>)
    ensures { least.new ≡ fold earlier least.old (map fault.NotFramed (function_unframed (function_view f.now))) }
{
    read_formula(&f.before, least);
    read_formula(&f.after, least);
    read_stmts(f.body.as_slice(), least);
}
