//! The code of tests, and of loops around their bodies.

ghost use Rattle.std.specs.Prelude.{◌≡◌, ◌+◌, [], ◌++◌, length, IfOk, OnOk};
ghost use Rattle.gc0_base.specs.declared.site.Kind.TheVariants as kind;
ghost use Rattle.gc0_tree.specs.Views.{expr_view, formula_view};
ghost use Rattle.core_tree.specs.declared.Phase.TheVariants.{Produce, Consume};
ghost use Rattle.core_tree.specs.CoreTree.{do_step, do_if, do_loop, no_code, code_and};
ghost use Rattle.core_tree.specs.CoreViews.{code_view};
ghost use Rattle.core_tables.specs.SiteTables.{choices_at};
ghost use Rattle.lowering_laws.specs.Counts.{Counts, fresh, counted, decided};
ghost use Rattle.lowering_laws.specs.Trees.{one, tree_code};
ghost use Rattle.lowering_laws.specs.Statements.{headed};
ghost use Rattle.lowering_laws.specs.Tables.{branch, formula_decisions, tree_decisions, placed, tree_placed};
ghost use Rattle.core_expressions.specs.Writing.{IsWithin, program_of, places_of, room_in, target_of, StandsFor, IsWritten};
ghost use Rattle.core_lower.specs.Parts.{AreWritten};
ghost use Rattle.core_lower.specs.Heads.{IsTest, IsLoopTest, IsHead};

use crate::steps::begin;
use core_expressions::{Within, Written, close, lower_expr, open};
use core_tables::PlacedSite;
use core_tree::{CoreStmt, Phase, Simple};
use formula_choices::choice_places;
use gc0_base::{Decision, Kind, Place};
use gc0_tree::{Expr, Formula};
use sqlite_items::Items;
use std::alloc::{AllocError, Global};
use tree_copies::copy_formula;

/// A truth that is tested, and what is decided by it.
#[derive(Clone, Copy, Debug, PartialEq, Eq)]
pub struct Test {
    pub value: Simple,
    pub decision: Decision,
}

/// What computes the test of a loop at each head.
#[derive(Drop)]
pub struct LoopTest {
    pub code: Items<CoreStmt>,
    pub truth: Test,
}

/// A loop up to its body: the places of its invariant's choices, and its test.
#[derive(Drop)]
pub struct Head {
    pub places: Items<Place>,
    pub test: LoopTest,
}

// The condition of an `if`, behind the step, and the decision of the branch.
pub fn lower_condition(
    within: &Within<'_>,
    out: &mut Written,
    place: Place,
    e: &Expr,
) -> Result<Test, AllocError>
    requires { IsWithin within.now }
    ensures test { IfOk result (λ t. IsTest within.now (fresh (length out.old.decisions)) (expr_view e.now) t) }
    ensures written { OnOk result (AreWritten out.old out.new ((counted (program_of within.now) (room_in within.now) (fresh (length out.old.decisions)) (expr_view e.now)).next + 1) (code_and do_step (tree_code (program_of within.now) (room_in within.now) (target_of within.now) (fresh (length out.old.decisions)) (expr_view e.now))) (tree_decisions (program_of within.now) (places_of within.now) (expr_view e.now) ++ branch place) (tree_placed (places_of within.now) (expr_view e.now))) }
{
    begin(out)?;
    let x = lower_expr(within, out, e)?;
    let decision = out.branch(within, place)?;
    Ok(Test {
        value: x.value,
        decision,
    })
}

// Writes an `if` behind its condition.
pub fn close_if(
    out: &mut Written,
    test: Test,
    yes: Items<CoreStmt>,
    no: Items<CoreStmt>,
) -> Result<(), AllocError>
    ensures { OnOk result (AreWritten out.old out.new (length out.old.decisions) (one (do_if test.decision test.value (code_view yes) (code_view no))) [] []) }
{
    out.push(CoreStmt::If {
        decision: test.decision,
        condition: test.value,
        yes,
        no,
    })
}

// The test of a loop, in a list of its own.
fn lower_test(
    alloc: Global,
    within: &Within<'_>,
    out: &mut Written,
    place: Place,
    e: &Expr,
) -> Result<LoopTest, AllocError>
    requires { IsWithin within.now }
    ensures test { (c : Counts) → StandsFor out.old c → IfOk result (λ t. IsLoopTest within.now c (expr_view e.now) t) }
    ensures written { (c : Counts) → StandsFor out.old c → OnOk result (AreWritten out.old out.new ((counted (program_of within.now) (room_in within.now) c (expr_view e.now)).next + 1) no_code (tree_decisions (program_of within.now) (places_of within.now) (expr_view e.now) ++ branch place) (tree_placed (places_of within.now) (expr_view e.now))) }
{
    let outer = open(alloc, out);
    out.push(CoreStmt::Step)?;
    let x = lower_expr(within, out, e)?;
    let decision = out.branch(within, place)?;
    let code = close(out, outer);
    Ok(LoopTest {
        code,
        truth: Test {
            value: x.value,
            decision,
        },
    })
}

// Takes the decisions of a loop's first head, and notes both of its sites.
fn enter_loop(
    within: &Within<'_>,
    out: &mut Written,
    place: Place,
    places: &[Place],
) -> Result<(), AllocError>
    requires { IsWithin within.now }
    ensures { (c : Counts) → StandsFor out.old c → OnOk result (IsWritten out.old out.new (decided (length places.now) (decided (length places.now) c)) no_code (choices_at (places_of within.now kind.Entry place) Consume 0 places.now ++ choices_at (places_of within.now kind.Entry place) Produce 0 places.now) (placed (places_of within.now kind.Entry place) place ++ placed (places_of within.now kind.Again place) place)) }
{
    let entry = within.site(Kind::Entry, place);
    let again = within.site(Kind::Again, place);
    out.decide(entry, Phase::Consume, places)?;
    out.decide(entry, Phase::Produce, places)?;
    out.place(PlacedSite {
        site: entry,
        about: None,
        place,
    })?;
    out.place(PlacedSite {
        site: again,
        about: None,
        place,
    })
}

// A loop up to its body.
pub fn lower_head(
    alloc: Global,
    within: &Within<'_>,
    out: &mut Written,
    place: Place,
    invariant: &Formula,
    e: &Expr,
) -> Result<Head, AllocError>
    requires { IsWithin within.now }
    ensures head { IfOk result (λ h. IsHead within.now (length out.old.decisions) (formula_view invariant.now) (expr_view e.now) h) }
    ensures written { OnOk result (AreWritten out.old out.new ((counted (program_of within.now) (room_in within.now) (fresh (headed (length out.old.decisions) (formula_view invariant.now))) (expr_view e.now)).next + 1) (one do_step) ((formula_decisions (places_of within.now kind.Entry place) Consume (formula_view invariant.now) ++ formula_decisions (places_of within.now kind.Entry place) Produce (formula_view invariant.now)) ++ (tree_decisions (program_of within.now) (places_of within.now) (expr_view e.now) ++ branch place)) ((placed (places_of within.now kind.Entry place) place ++ placed (places_of within.now kind.Again place) place) ++ tree_placed (places_of within.now) (expr_view e.now))) }
{
    let places = choice_places(alloc, invariant.parts.as_slice())?;
    begin(out)?;
    enter_loop(within, out, place, places.as_slice())?;
    let test = lower_test(alloc, within, out, place, e)?;
    Ok(Head { places, test })
}

// Ends a loop: its later heads show the invariant.
pub fn close_loop(
    alloc: Global,
    within: &Within<'_>,
    out: &mut Written,
    place: Place,
    invariant: &Formula,
    head: Head,
    body: Items<CoreStmt>,
) -> Result<(), AllocError>
    requires { IsWithin within.now }
    ensures { OnOk result (AreWritten out.old out.new (length out.old.decisions + length head.places) (one (do_loop (places_of within.now kind.Entry place) (places_of within.now kind.Again place) (formula_view invariant.now) head.test.truth.decision (code_view head.test.code) head.test.truth.value (code_view body))) (choices_at (places_of within.now kind.Again place) Consume 0 head.places) []) }
{
    let entry = within.site(Kind::Entry, place);
    let again = within.site(Kind::Again, place);
    let invariant = copy_formula(alloc, invariant)?;
    out.decide(again, Phase::Consume, head.places.as_slice())?;
    out.push(CoreStmt::Loop {
        entry,
        again,
        invariant,
        decision: head.test.truth.decision,
        test: head.test.code,
        condition: head.test.truth.value,
        body,
    })
}
