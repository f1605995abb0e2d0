//! The ways through a function.

ghost use Rattle.std.specs.Prelude.{◌≡◌, ◌+◌, ℕ, min, slice_get};
ghost use Rattle.gc0_base.specs.declared.place.Place.{Place};
ghost use Rattle.std.specs.Option.{option_map};
ghost use Rattle.gc0_base.specs.declared.limits.TheConstants.Limits as limits;
ghost use Rattle.gc0_tree.specs.Tree.{Conjuncts};
ghost use Rattle.gc0_tree.specs.Views.{conjunct_view, conjuncts_view, note_form, stmt_view, stmts_view, stmts_in, function_view, program_view};
ghost use Rattle.self_framing.specs.Capped.{capped, ways_capped};
ghost use Rattle.self_framing.specs.Paths.{parts_paths, predicate_paths, unfolded_paths, stmt_ways, stmts_ways, function_paths, paths_of};

use crate::paths_capped::{Ways, branched, followed, looped, product, straight, sum};
use crate::paths_trees::{parts_paths, tree_paths, value_paths};
use gc0_tree::{Conjunct, Formula, Function, Note, Program, Stmt, StmtForm};
use sqlite_items::Boxed;

/// How many ways lead through the function of this number, or one more than a plain function may
/// have where there are more. Takes no memory. No way leads through a function that isn't there.
pub fn count_paths(program: &Program, function: u32) -> u64
    ensures { result ≡ min (paths_of (program_view program.now) (slice_get (program_view program.now).functions function)) (limits.PATHS + 1) }
{
    match program.functions.get(function as usize) {
        None => 0,
        Some(f) => function_paths(program, f),
    }
}

// One that reaches the end of its body shows `ensures` there.
fn function_paths(program: &Program, f: &Function) -> u64
    ensures { result ≡ capped (function_paths (program_view program.now) (function_view f.now)) }
{
    let before = parts_paths(f.before.parts.as_slice());
    let after = parts_paths(f.after.parts.as_slice());
    let body = stmts_ways(program, f, f.body.as_slice());
    product(before, sum(body.ended, product(body.on, after)))
}

// The ways through the body of a predicate.
fn predicate_paths(program: &Program, number: u32) -> u64
    ensures { result ≡ capped (predicate_paths (slice_get (program_view program.now).predicates number)) }
{
    match program.predicates.get(number as usize) {
        None => 1,
        Some(d) => parts_paths(d.body.as_slice()),
    }
}

// The ways through the predicate of an instance.
fn instance_paths(program: &Program, conjunct: &Conjunct) -> u64
    ensures { (rest : Conjuncts) → result ≡ capped (unfolded_paths (program_view program.now) (conjunct_view conjunct.now rest)) }
{
    match conjunct {
        Conjunct::Value(_) => 1,
        Conjunct::Acc(_, _) => 1,
        Conjunct::Instance(_, number, _) => predicate_paths(program, *number),
        Conjunct::Choice(_, _, _, _) => 1,
    }
}

// The ways through a fold or an unfold of a formula.
fn unfolded_paths(program: &Program, formula: &Formula) -> u64
    ensures { result ≡ capped (unfolded_paths (program_view program.now) (conjuncts_view formula.now.parts)) }
{
    match formula.parts.as_slice() {
        [] => 1,
        [first, ..] => instance_paths(program, first),
    }
}

fn note_ways(program: &Program, note: &Note) -> Ways
    ensures { (n : ℕ) (at : Place) → result ≡ ways_capped (stmt_ways (program_view program.now) n (note_form note.now at)) }
{
    match note {
        Note::Assert(formula) => straight(parts_paths(formula.parts.as_slice())),
        Note::Fold(formula) => straight(unfolded_paths(program, formula)),
        Note::Unfold(formula) => straight(unfolded_paths(program, formula)),
    }
}

// The ways through a statement of a function. Each `return` shows the function's `ensures`.
#[cycle(statements)]
fn stmt_ways(program: &Program, f: &Function, s: &Stmt) -> Ways
    ensures { result ≡ ways_capped (stmt_ways (program_view program.now) (parts_paths (conjuncts_view f.now.after.parts)) (stmt_view s.now)) }
{
    match &s.form {
        StmtForm::Declare { local: _, value } => straight(value_paths(program, value)),
        StmtForm::Assign {
            local: _,
            op: _,
            op_place: _,
            value,
        } => straight(tree_paths(program, value)),
        StmtForm::Write {
            base,
            of_struct: _,
            field: _,
            arrow: _,
            op: _,
            op_place: _,
            value,
        } => straight(product(tree_paths(program, base), tree_paths(program, value))),
        StmtForm::Plain(e) => straight(tree_paths(program, e)),
        StmtForm::Block(ss) => stmts_ways(program, f, ss.as_slice()),
        StmtForm::If { condition, yes, no } => branched(
            tree_paths(program, condition),
            stmt_ways(program, f, yes.get()),
            part_ways(program, f, no),
        ),
        StmtForm::While {
            invariant,
            test,
            body,
        } => looped(
            parts_paths(invariant.parts.as_slice()),
            tree_paths(program, test),
            stmt_ways(program, f, body.get()),
        ),
        StmtForm::For {
            first,
            test,
            last,
            invariant,
            body,
        } => {
            let turn = followed(
                stmt_ways(program, f, body.get()),
                part_ways(program, f, last),
            );
            let turns = looped(
                parts_paths(invariant.parts.as_slice()),
                tree_paths(program, test),
                turn,
            );
            followed(part_ways(program, f, first), turns)
        }
        StmtForm::Return(value) => Ways {
            on: 0,
            ended: product(
                value_paths(program, value),
                parts_paths(f.after.parts.as_slice()),
            ),
        },
        StmtForm::Assert(e) => straight(tree_paths(program, e)),
        StmtForm::Raise(_) => Ways { on: 0, ended: 1 },
        StmtForm::Note(note) => note_ways(program, note),
    }
}

#[cycle(statements)]
fn stmts_ways(program: &Program, f: &Function, ss: &[Stmt]) -> Ways
    ensures { result ≡ ways_capped (stmts_ways (program_view program.now) (parts_paths (conjuncts_view f.now.after.parts)) (stmts_view ss.now)) }
{
    let mut left = ss.len();
    let mut ways = straight(1);
    while left > 0 {
        left -= 1;
        ways = followed(stmt_ways(program, f, &ss[left]), ways);
    }
    ways
}

#[cycle(statements)]
fn part_ways(program: &Program, f: &Function, part: &Option<Boxed<Stmt>>) -> Ways
    ensures { result ≡ ways_capped (stmts_ways (program_view program.now) (parts_paths (conjuncts_view f.now.after.parts)) (stmts_in (option_map stmt_view part.now))) }
{
    match part {
        None => straight(1),
        Some(s) => stmt_ways(program, f, s.get()),
    }
}
