//! The locals that the `ensures` of a contract name.

#![tactic(auto, using(c0_names::specs::Names::names_both))]

ghost use Rattle.std.specs.Prelude.{◌≡◌, [], fold, map, OnOk, IfOk};
ghost use Rattle.std.specs.Option.{option_map};
ghost use Rattle.parsed_tree.specs.Views.{expr_view, exprs_view, clause_view, contract_view};
ghost use Rattle.c0_names.specs.Names.{names_with};
ghost use Rattle.c0_rules.specs.Rules.{expr_locals, exprs_locals, formula_locals, is_ensures, clause_locals, clauses_locals, contract_locals, ensured};

use c0_names::Index;
use parsed_tree::{Clause, Contract, Expr, Side};
use std::alloc::{AllocError, Global};

#[cycle(in_expression)]
fn in_expression<'a>(names: &mut Index<'a>, e: &'a Expr) -> Result<(), AllocError>
    ensures { OnOk result (names.new ≡ fold names_with names.old (expr_locals (expr_view e.now))) }
{
    match e {
        Expr::Number(_, _) => Ok(()),
        Expr::Truth(_, _) => Ok(()),
        Expr::Null(_) => Ok(()),
        Expr::Local(_, name) => names.add(name.as_slice()),
        Expr::Outcome(_) => Ok(()),
        Expr::Unary(_, _, x) => in_expression(names, x.get()),
        Expr::Binary(_, _, x, y) => {
            in_expression(names, x.get())?;
            in_expression(names, y.get())
        }
        Expr::Choose(_, x, y, z) => {
            in_expression(names, x.get())?;
            in_expression(names, y.get())?;
            in_expression(names, z.get())
        }
        Expr::Arrow(_, x, _) => in_expression(names, x.get()),
        Expr::Call(_, _, arguments) => in_expressions(names, arguments.as_slice()),
        Expr::CallText(_, _, _) => Ok(()),
        Expr::Alloc(_, _) => Ok(()),
        Expr::Acc(_, x, _, _) => in_expression(names, x.get()),
    }
}

#[cycle(in_expression)]
fn in_expressions<'a>(names: &mut Index<'a>, parts: &'a [Expr]) -> Result<(), AllocError>
    ensures { OnOk result (names.new ≡ fold names_with names.old (exprs_locals (exprs_view parts.now))) }
{
    for e in parts {
        in_expression(names, e)?;
    }
    Ok(())
}

fn in_formula<'a>(names: &mut Index<'a>, parts: &'a Option<Expr>) -> Result<(), AllocError>
    ensures { OnOk result (names.new ≡ fold names_with names.old (formula_locals (option_map expr_view parts.now))) }
{
    match parts {
        Some(e) => in_expression(names, e),
        None => Ok(()),
    }
}

fn is_ensures(side: Side) -> bool
    ensures { result ≡ is_ensures side }
{
    matches!(side, Side::Ensures)
}

fn in_clause<'a>(names: &mut Index<'a>, clause: &'a Clause) -> Result<(), AllocError>
    ensures { OnOk result (names.new ≡ fold names_with names.old (clause_locals (clause_view clause.now))) }
{
    if is_ensures(clause.side) {
        in_formula(names, &clause.formula.parts)
    } else {
        Ok(())
    }
}

fn in_clauses<'a>(names: &mut Index<'a>, clauses: &'a [Clause]) -> Result<(), AllocError>
    ensures { OnOk result (names.new ≡ fold names_with names.old (clauses_locals (map clause_view clauses.now))) }
{
    for clause in clauses {
        in_clause(names, clause)?;
    }
    Ok(())
}

/// The names of locals in the `ensures` of a function, each once.
pub fn ensured<'a>(alloc: Global, contracts: &'a [Contract]) -> Result<Index<'a>, AllocError>
    ensures { IfOk result (λ names. names ≡ ensured (map contract_view contracts.now)) }
{
    let mut names = Index::new(alloc);
    for contract in contracts {
        in_clauses(&mut names, contract.clauses.as_slice())?;
    }
    Ok(names)
}
