//! The ways through expressions and conjuncts.

ghost use Rattle.std.specs.Prelude.{◌≡◌, slice_get};
ghost use Rattle.std.specs.Option.{option_map};
ghost use Rattle.gc0_tree.specs.Tree.{Conjuncts};
ghost use Rattle.gc0_tree.specs.Views.{expr_view, exprs_view, trees_in, expr_in, conjunct_view, conjuncts_view, program_view};
ghost use Rattle.self_framing.specs.Capped.{capped};
ghost use Rattle.self_framing.specs.Paths.{parts_paths, contract_paths, tree_paths, trees_paths};

use crate::paths_capped::{product, sum};
use gc0_tree::{Conjunct, Expr, ExprForm, Program};
use sqlite_items::Boxed;

/// The ways through conjuncts.
#[cycle(parts)]
pub fn parts_paths(parts: &[Conjunct]) -> u64
    ensures { result ≡ capped (parts_paths (conjuncts_view parts.now)) }
{
    let mut left = parts.len();
    let mut ways = 1;
    while left > 0 {
        left -= 1;
        ways = conjunct_paths(&parts[left], ways);
    }
    ways
}

// The ways through a conjunct and those behind it.
#[cycle(parts)]
fn conjunct_paths(conjunct: &Conjunct, behind: u64) -> u64
    ensures { (rest : Conjuncts) → behind ≡ capped (parts_paths rest) → result ≡ capped (parts_paths (conjunct_view conjunct.now rest)) }
{
    match conjunct {
        Conjunct::Value(_) => behind,
        Conjunct::Acc(_, _) => behind,
        Conjunct::Instance(_, _, _) => behind,
        Conjunct::Choice(_, _, these, those) => {
            let either = sum(parts_paths(these.as_slice()), parts_paths(those.as_slice()));
            product(either, behind)
        }
    }
}

// The ways through the contract of a called function.
fn contract_paths(program: &Program, number: u32) -> u64
    ensures { result ≡ capped (contract_paths (slice_get (program_view program.now).functions number)) }
{
    match program.functions.get(number as usize) {
        None => 1,
        Some(f) => product(
            parts_paths(f.before.parts.as_slice()),
            parts_paths(f.after.parts.as_slice()),
        ),
    }
}

/// The ways through an expression.
#[cycle(trees)]
pub fn tree_paths(program: &Program, e: &Expr) -> u64
    ensures { result ≡ capped (tree_paths (program_view program.now) (expr_view e.now)) }
{
    match &e.form {
        ExprForm::Number(_) => 1,
        ExprForm::Truth(_) => 1,
        ExprForm::Null => 1,
        ExprForm::Local(_) => 1,
        ExprForm::ResultValue => 1,
        ExprForm::Unary(_, a) => tree_paths(program, a.get()),
        ExprForm::Binary(_, a, b) => {
            product(tree_paths(program, a.get()), tree_paths(program, b.get()))
        }
        ExprForm::Both(a, b) => {
            let where_true = sum(tree_paths(program, b.get()), 1);
            product(tree_paths(program, a.get()), where_true)
        }
        ExprForm::Either(a, b) => {
            let where_false = sum(tree_paths(program, b.get()), 1);
            product(tree_paths(program, a.get()), where_false)
        }
        ExprForm::Choose(a, b, c) => {
            let branches = sum(tree_paths(program, b.get()), tree_paths(program, c.get()));
            product(tree_paths(program, a.get()), branches)
        }
        ExprForm::Read {
            base,
            of_struct: _,
            field: _,
        } => tree_paths(program, base.get()),
        ExprForm::Call {
            function,
            arguments,
        } => product(
            trees_paths(program, arguments.as_slice()),
            contract_paths(program, *function),
        ),
        ExprForm::Library {
            call: _,
            argument,
            text: _,
        } => argument_paths(program, argument),
        ExprForm::Alloc(_) => 1,
    }
}

#[cycle(trees)]
fn trees_paths(program: &Program, es: &[Expr]) -> u64
    ensures { result ≡ capped (trees_paths (program_view program.now) (exprs_view es.now)) }
{
    let mut left = es.len();
    let mut ways = 1;
    while left > 0 {
        left -= 1;
        ways = product(tree_paths(program, &es[left]), ways);
    }
    ways
}

#[cycle(trees)]
fn argument_paths(program: &Program, argument: &Option<Boxed<Expr>>) -> u64
    ensures { result ≡ capped (trees_paths (program_view program.now) (trees_in (option_map expr_view argument.now))) }
{
    match argument {
        None => 1,
        Some(e) => tree_paths(program, e.get()),
    }
}

/// The ways through an expression that may be absent.
pub fn value_paths(program: &Program, value: &Option<Expr>) -> u64
    ensures { result ≡ capped (trees_paths (program_view program.now) (expr_in value.now)) }
{
    match value {
        None => 1,
        Some(e) => tree_paths(program, e),
    }
}
