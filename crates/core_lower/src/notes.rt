//! The code of annotations.

ghost use Rattle.std.specs.Prelude.{◌≡◌, [], ◌∷◌, length, OnOk};
ghost use Rattle.gc0_tree.specs.Views.{formula_view, note_form};
ghost use Rattle.core_tree.specs.CoreTree.{no_code};
ghost use Rattle.core_tree.specs.CoreViews.{note_at};
ghost use Rattle.core_meaning.specs.Choices.{choices, instance_body};
ghost use Rattle.core_meaning.specs.CoreSited.{instance_number};
ghost use Rattle.lowering_laws.specs.Counts.{Counts, decided};
ghost use Rattle.lowering_laws.specs.Trees.{one};
ghost use Rattle.lowering_laws.specs.Tables.{body_decisions};
ghost use Rattle.core_expressions.specs.Writing.{IsWithin, program_of, StandsFor, IsWritten};
ghost use Rattle.core_lower.specs.Parts.{IsStmt};

use core_expressions::{Within, Written};
use core_tables::PlacedSite;
use core_tree::{CoreStmt, Phase};
use formula_choices::choice_places;
use gc0_base::{Kind, Place, Site};
use gc0_tree::{Conjunct, Formula, Note};
use std::alloc::{AllocError, Global};
use tree_copies::copy_note;

// The number of the predicate whose instance comes first.
fn instance_number(formula: &Formula) -> Option<u32>
    ensures { result ≡ instance_number (formula_view formula.now).parts }
{
    match formula.parts.as_slice() {
        [Conjunct::Instance(_, number, _), ..] => Some(*number),
        _ => None,
    }
}

// Takes the decisions of the body of a fold's or an unfold's instance.
fn decide_body(
    within: &Within<'_>,
    out: &mut Written,
    site: Site,
    phase: Phase,
    formula: &Formula,
) -> Result<(), AllocError>
    requires { IsWithin within.now }
    ensures { (c : Counts) → StandsFor out.old c → OnOk result (IsWritten out.old out.new (decided (length (choices (instance_body (program_of within.now).predicates (formula_view formula.now).parts))) c) no_code (body_decisions (program_of within.now) site phase (formula_view formula.now)) []) }
{
    match instance_number(formula) {
        None => Ok(()),
        Some(number) => match within.choices.bodies.get(number as usize) {
            None => Ok(()),
            Some(places) => out.decide(site, phase, places.as_slice()),
        },
    }
}

// Writes an annotation with its site, behind its decisions.
fn write_note(
    alloc: Global,
    out: &mut Written,
    site: Site,
    about: Option<u32>,
    place: Place,
    note: &Note,
) -> Result<(), AllocError>
    ensures { (c : Counts) → StandsFor out.old c → OnOk result (IsWritten out.old out.new c (one (note_at note.now site)) [] (record { site = site; about = about; place = place } ∷ [])) }
{
    let note = copy_note(alloc, note)?;
    out.place(PlacedSite { site, about, place })?;
    out.push(CoreStmt::Note { note, site })
}

// `assert`, `fold` and `unfold` among the statements.
pub fn lower_note(
    alloc: Global,
    within: &Within<'_>,
    out: &mut Written,
    place: Place,
    note: &Note,
) -> Result<(), AllocError>
    requires { IsWithin within.now }
    ensures { OnOk result (IsStmt within.now out.old out.new (note_form note.now place)) }
{
    match note {
        Note::Assert(formula) => {
            let site = within.site(Kind::Assert, place);
            let places = choice_places(alloc, formula.parts.as_slice())?;
            out.decide(site, Phase::Consume, places.as_slice())?;
            write_note(alloc, out, site, None, place, note)
        }
        Note::Fold(formula) => {
            let site = within.site(Kind::Fold, place);
            decide_body(within, out, site, Phase::Consume, formula)?;
            write_note(alloc, out, site, instance_number(formula), place, note)
        }
        Note::Unfold(formula) => {
            let site = within.site(Kind::Unfold, place);
            decide_body(within, out, site, Phase::Produce, formula)?;
            write_note(alloc, out, site, instance_number(formula), place, note)
        }
    }
}
