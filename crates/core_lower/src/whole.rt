//! What is written of a whole function: its start, its statements and its end.

ghost use Rattle.std.specs.Prelude.{◌≡◌, ◌+◌, [], eqb, length, if◌then◌else◌, slice_get, Some, IfOk, OnOk};
ghost use Rattle.gc0_tree.specs.Views.{program_view, function_view};
ghost use Rattle.core_tree.specs.declared.Phase.TheVariants.{Consume};
ghost use Rattle.core_tree.specs.CoreTree.{no_code};
ghost use Rattle.core_tables.specs.SiteTables.{choices_at};
ghost use Rattle.formula_choices.specs.ChoicePlaces.{AreChoices};
ghost use Rattle.temp_counts.specs.Used.{AreTemps};
ghost use Rattle.lowering_laws.specs.Counts.{Counts, decided};
ghost use Rattle.lowering_laws.specs.Lowering.{start_choices, close_code};
ghost use Rattle.lowering_laws.specs.Tables.{start_decisions, close_decisions, close_placed};
ghost use Rattle.core_expressions.specs.Writing.{IsWithin, program_of, function_of, places_of, target_of, StandsFor, IsWritten};
ghost use Rattle.core_lower.specs.Parts.{IsNumbered, AreWritten};
ghost use Rattle.core_lower.specs.Wholes.{IsBody};

use crate::statements::lower_stmts;
use crate::steps::decide_after;
use core_expressions::{Within, Written};
use core_tables::PlacedSite;
use core_tree::{CoreStmt, Phase};
use formula_choices::ProgramChoices;
use gc0_base::{Kind, Place, Site};
use gc0_tree::{Function, Program};
use std::alloc::{AllocError, Global};
use temp_counts::Temps;

// Takes the decisions of a formula that `main` alone consumes.
fn decide_in_main(
    number: u32,
    main: u32,
    out: &mut Written,
    site: Site,
    places: &[Place],
) -> Result<(), AllocError>
    ensures { (c : Counts) → StandsFor out.old c → OnOk result (IsWritten out.old out.new (decided (if eqb number main then length places.now else 0) c) no_code (if eqb number main then choices_at site Consume 0 places.now else []) []) }
{
    if number == main {
        out.decide(site, Phase::Consume, places)
    } else {
        Ok(())
    }
}

// The decisions at the start: `main` consumes its `requires`, and each function produces its own.
fn lower_start(within: &Within<'_>, out: &mut Written) -> Result<(), AllocError>
    requires within { IsWithin within.now }
    requires number { IsNumbered within.now }
    ensures { OnOk result (AreWritten out.old out.new (length out.old.decisions + start_choices (program_of within.now) within.now.number (function_of within.now)) no_code (start_decisions (program_of within.now) within.now.number (function_of within.now)) []) }
{
    let site = Site {
        function: within.number,
        kind: Kind::Start,
        ordinal: 0,
    };
    match within.choices.before.get(within.number as usize) {
        None => Err(AllocError),
        Some(places) => {
            decide_in_main(
                within.number,
                within.program.main,
                out,
                site,
                places.as_slice(),
            )?;
            out.decide(site, Phase::Produce, places.as_slice())
        }
    }
}

// A function without a result returns at its closing brace.
fn lower_close(within: &Within<'_>, out: &mut Written) -> Result<(), AllocError>
    requires within { IsWithin within.now }
    requires number { IsNumbered within.now }
    ensures { OnOk result (AreWritten out.old out.new (length out.new.decisions) (close_code (target_of within.now) (function_of within.now) (function_of within.now).result) (close_decisions within.now.number (function_of within.now) (function_of within.now).result) (close_placed (places_of within.now) (function_of within.now) (function_of within.now).result)) }
{
    match within.function.result {
        Some(_) => Ok(()),
        None => {
            let site = within.site(Kind::Ensures, within.function.close);
            decide_after(within, out, site)?;
            out.place(PlacedSite {
                site,
                about: None,
                place: within.function.close,
            })?;
            out.push(CoreStmt::Return { value: None, site })
        }
    }
}

/// The code, the decisions and the sites of a function.
///
/// Errors: there was not memory enough, or a number would be 2^32 or more.
pub fn lower_body(
    alloc: Global,
    program: &Program,
    choices: &ProgramChoices,
    function: &Function,
    number: u32,
    temps: &Temps,
) -> Result<Written, AllocError>
    requires choices { AreChoices choices.now (program_view program.now) }
    requires temps { AreTemps temps.now (program_view program.now) (function_view function.now) }
    requires number { slice_get (program_view program.now).functions number ≡ Some (function_view function.now) }
    ensures { IfOk result (λ out. IsBody (program_view program.now) number (function_view function.now) out) }
{
    let within = Within::new(alloc, program, function, number, choices, temps)?;
    let mut out = Written::new(alloc);
    lower_start(&within, &mut out)?;
    lower_stmts(alloc, &within, &mut out, function.body.as_slice())?;
    lower_close(&within, &mut out)?;
    Ok(out)
}
