//! The first of the two faults of a tree: a contract at a prototype, and a read of a formula in an
//! operand that may not be evaluated. Each function goes on from what was found before it.
#![tactic(auto, using(crate::proofs::Firsts::both_parts))]

ghost use Rattle.std.specs.Prelude.{◌≡◌, map, fold};
ghost use Rattle.parsed_tree.specs.Views.{expr_view, exprs_view, formula_view, note_view, invariant_view, invariants_view, stmt_view, stmts_view, clause_view, contract_view, predicate_view, item_view, program_view};
ghost use Rattle.parse_faults.specs.TreeFaults.{reads_in, all_reads_in, deep_in, deep_args, deep_conditions, deep_parts, formula_faults, note_faults, invariant_faults, invariants_faults, stmt_faults, stmts_faults, clause_faults, contract_faults, prototype_clause, prototype_contract, predicate_faults, item_faults, tree_faults, all_of};
ghost use Rattle.parse_faults.specs.First.{first_of, earlier};

use crate::fault::ParseFault;
use parsed_tree::{
    Clause, Contract, Expr, Formula, Invariant, Invariants, Item, Note, NoteForm, Operator, Parsed,
    PredicateText, Stmt,
};

// What was found before, or else the first `->` of a read.
#[cycle(read)]
fn first_read(found: Option<ParseFault>, e: &Expr) -> Option<ParseFault>
    ensures { result ≡ fold earlier found (reads_in (expr_view e.now)) }
{
    match e {
        Expr::Unary(_, _, x) => first_read(found, x.get()),
        Expr::Binary(_, _, x, y) => first_read(first_read(found, x.get()), y.get()),
        Expr::Choose(_, x, y, z) => {
            let found = first_read(first_read(found, x.get()), y.get());
            first_read(found, z.get())
        }
        Expr::Arrow(spot, x, _) => {
            first_read(found, x.get()).or(Some(ParseFault::DeepRead(spot.place)))
        }
        Expr::Call(_, _, xs) => first_read_in(found, xs.as_slice()),
        Expr::Acc(_, x, _, _) => first_read(found, x.get()),
        _ => found,
    }
}

#[cycle(read)]
fn first_read_in(mut found: Option<ParseFault>, parts: &[Expr]) -> Option<ParseFault>
    ensures { result ≡ fold earlier found (all_reads_in (exprs_view parts.now)) }
{
    for part in parts {
        found = first_read(found, part);
    }
    found
}

// The same of a read in an operand of `&&`, `||` or `?:`, of a value or a condition.
fn first_deep(found: Option<ParseFault>, e: &Expr) -> Option<ParseFault>
    ensures { result ≡ fold earlier found (deep_in (expr_view e.now)) }
{
    match e {
        Expr::Unary(_, _, x) => first_deep(found, x.get()),
        Expr::Binary(_, Operator::Both, x, y) => first_read(first_read(found, x.get()), y.get()),
        Expr::Binary(_, Operator::Either, x, y) => first_read(first_read(found, x.get()), y.get()),
        Expr::Binary(_, _, x, y) => first_deep(first_deep(found, x.get()), y.get()),
        Expr::Choose(_, x, y, z) => {
            let found = first_read(first_read(found, x.get()), y.get());
            first_read(found, z.get())
        }
        Expr::Arrow(_, x, _) => first_deep(found, x.get()),
        _ => found,
    }
}

fn first_deep_in(mut found: Option<ParseFault>, parts: &[Expr]) -> Option<ParseFault>
    ensures { result ≡ fold earlier found (deep_args (exprs_view parts.now)) }
{
    for part in parts {
        found = first_deep(found, part);
    }
    found
}

// The same of what stands to the left of `||`.
fn in_conditions(found: Option<ParseFault>, e: &Expr) -> Option<ParseFault>
    ensures { result ≡ fold earlier found (deep_conditions (expr_view e.now)) }
{
    match e {
        Expr::Binary(_, Operator::Either, x, y) => {
            in_conditions(in_conditions(found, x.get()), y.get())
        }
        _ => first_deep(found, e),
    }
}

// The same of conjuncts.
fn in_parts(found: Option<ParseFault>, e: &Expr) -> Option<ParseFault>
    ensures { result ≡ fold earlier found (deep_parts (expr_view e.now)) }
{
    match e {
        Expr::Binary(_, Operator::Both, x, y) => in_parts(in_parts(found, x.get()), y.get()),
        Expr::Binary(_, Operator::Either, x, y) => in_parts(in_conditions(found, x.get()), y.get()),
        Expr::Choose(_, x, y, z) => {
            let found = in_parts(first_deep(found, x.get()), y.get());
            in_parts(found, z.get())
        }
        Expr::Call(_, _, xs) => first_deep_in(found, xs.as_slice()),
        Expr::Acc(_, _, _, _) => found,
        _ => first_deep(found, e),
    }
}

fn in_formula(found: Option<ParseFault>, formula: &Formula) -> Option<ParseFault>
    ensures { result ≡ fold earlier found (formula_faults (formula_view formula.now)) }
{
    match &formula.parts {
        Some(e) => in_parts(found, e),
        None => found,
    }
}

fn in_note(found: Option<ParseFault>, note: &Note) -> Option<ParseFault>
    ensures { result ≡ fold earlier found (note_faults (note_view note.now)) }
{
    match &note.form {
        NoteForm::Assert(formula) => in_formula(found, formula),
        NoteForm::Fold(instance) => first_deep_in(found, instance.arguments.as_slice()),
        NoteForm::Unfold(instance) => first_deep_in(found, instance.arguments.as_slice()),
    }
}

fn in_notes(mut found: Option<ParseFault>, notes: &[Note]) -> Option<ParseFault>
    ensures { result ≡ fold earlier found (all_of note_faults (map note_view notes.now)) }
{
    for part in notes {
        found = in_note(found, part);
    }
    found
}

fn in_invariant(found: Option<ParseFault>, invariant: &Invariant) -> Option<ParseFault>
    ensures { result ≡ fold earlier found (invariant_faults (invariant_view invariant.now)) }
{
    in_formula(found, &invariant.formula)
}

fn in_invariants(mut found: Option<ParseFault>, invariants: &Invariants) -> Option<ParseFault>
    ensures { result ≡ fold earlier found (invariants_faults (invariants_view invariants.now)) }
{
    for part in invariants.clauses.as_slice() {
        found = in_invariant(found, part);
    }
    found
}

fn in_all_invariants(mut found: Option<ParseFault>, all: &[Invariants]) -> Option<ParseFault>
    ensures { result ≡ fold earlier found (all_of invariants_faults (map invariants_view all.now)) }
{
    for part in all {
        found = in_invariants(found, part);
    }
    found
}

#[cycle(stmt)]
fn in_stmt(found: Option<ParseFault>, stmt: &Stmt) -> Option<ParseFault>
    ensures { result ≡ fold earlier found (stmt_faults (stmt_view stmt.now)) }
{
    match stmt {
        Stmt::Block { body, .. } => in_stmts(found, body.as_slice()),
        Stmt::If { yes, no, .. } => {
            let found = in_stmt(found, yes.get());
            match no {
                Some(no) => in_stmt(found, no.get()),
                None => found,
            }
        }
        Stmt::While {
            invariants,
            body,
            ..
        } => in_stmt(in_all_invariants(found, invariants.as_slice()), body.get()),
        Stmt::For {
            invariants,
            body,
            ..
        } => in_stmt(in_all_invariants(found, invariants.as_slice()), body.get()),
        Stmt::Notes { clauses, .. } => in_notes(found, clauses.as_slice()),
        _ => found,
    }
}

#[cycle(stmt)]
fn in_stmts(mut found: Option<ParseFault>, stmts: &[Stmt]) -> Option<ParseFault>
    ensures { result ≡ fold earlier found (stmts_faults (stmts_view stmts.now)) }
{
    for part in stmts {
        found = in_stmt(found, part);
    }
    found
}

fn in_clause(found: Option<ParseFault>, clause: &Clause) -> Option<ParseFault>
    ensures { result ≡ fold earlier found (clause_faults (clause_view clause.now)) }
{
    in_formula(found, &clause.formula)
}

fn in_contract(mut found: Option<ParseFault>, contract: &Contract) -> Option<ParseFault>
    ensures { result ≡ fold earlier found (contract_faults (contract_view contract.now)) }
{
    for part in contract.clauses.as_slice() {
        found = in_clause(found, part);
    }
    found
}

fn in_contracts(mut found: Option<ParseFault>, contracts: &[Contract]) -> Option<ParseFault>
    ensures { result ≡ fold earlier found (all_of contract_faults (map contract_view contracts.now)) }
{
    for part in contracts {
        found = in_contract(found, part);
    }
    found
}

// The same of a clause at a prototype.
fn at_prototype(found: Option<ParseFault>, clause: &Clause) -> Option<ParseFault>
    ensures { result ≡ fold earlier found (prototype_clause (clause_view clause.now)) }
{
    let found = found.or(Some(ParseFault::ContractOnPrototype(clause.place)));
    in_formula(found, &clause.formula)
}

fn in_prototype(mut found: Option<ParseFault>, contract: &Contract) -> Option<ParseFault>
    ensures { result ≡ fold earlier found (prototype_contract (contract_view contract.now)) }
{
    for part in contract.clauses.as_slice() {
        found = at_prototype(found, part);
    }
    found
}

fn in_prototypes(mut found: Option<ParseFault>, contracts: &[Contract]) -> Option<ParseFault>
    ensures { result ≡ fold earlier found (all_of prototype_contract (map contract_view contracts.now)) }
{
    for part in contracts {
        found = in_prototype(found, part);
    }
    found
}

fn in_predicate(found: Option<ParseFault>, predicate: &PredicateText) -> Option<ParseFault>
    ensures { result ≡ fold earlier found (predicate_faults (predicate_view predicate.now)) }
{
    in_parts(found, &predicate.body)
}

fn in_predicates(mut found: Option<ParseFault>, predicates: &[PredicateText]) -> Option<ParseFault>
    ensures { result ≡ fold earlier found (all_of predicate_faults (map predicate_view predicates.now)) }
{
    for part in predicates {
        found = in_predicate(found, part);
    }
    found
}

fn in_item(found: Option<ParseFault>, item: &Item) -> Option<ParseFault>
    ensures { result ≡ fold earlier found (item_faults (item_view item.now)) }
{
    match item {
        Item::Prototype { contract, .. } => in_prototypes(found, contract.as_slice()),
        Item::Function { contract, body, .. } => {
            in_stmts(in_contracts(found, contract.as_slice()), body.as_slice())
        }
        Item::Predicates { predicates, .. } => in_predicates(found, predicates.as_slice()),
        _ => found,
    }
}

/// The first fault of a tree, in the order of the text.
pub fn first_fault(parsed: &Parsed) -> Option<ParseFault>
    ensures { result ≡ first_of (tree_faults (program_view parsed.now)) }
{
    let mut found = None;
    for part in parsed.items.as_slice() {
        found = in_item(found, part);
    }
    found
}
