//! The code of functions.

ghost use Rattle.std.specs.Prelude.{◌≡◌, ◌<◌, ◌^◌, Bool, ℕ, Some, not, is_some, length, slice_get, IfOk, OnOk};
ghost use Rattle.gc0_tree.specs.Views.{program_view, function_view};
ghost use Rattle.formula_choices.specs.ChoicePlaces.{AreChoices};
ghost use Rattle.core_tree.specs.CoreViews.{core_function_view};
ghost use Rattle.core_tables.specs.SiteTables.{table_of};
ghost use Rattle.lowering_laws.specs.Lowering.{lowered_function};
ghost use Rattle.lowering_laws.specs.Tables.{decisions_of, placed_of};
ghost use Rattle.lowering_laws.specs.Apart.{is_apart};

use crate::whole::lower_body;
use core_tables::{shared_site, table_of};
use core_tree::CoreFunction;
use formula_choices::ProgramChoices;
use gc0_base::Place;
use gc0_tree::{Function, Program};
use sqlite_items::Items;
use std::alloc::{AllocError, Global};
use temp_counts::Temps;
use tree_copies::{copy_formula, copy_names};

/// What is known of a function beside its code.
#[derive(Clone, Copy, Debug, PartialEq, Eq)]
pub struct Known {
    /// Its number.
    pub number: u32,
    /// Whether it is plain.
    pub plain: bool,
    /// How many paths it has.
    pub paths: u64,
}

/// A function that is lowered.
#[derive(Drop)]
pub struct LoweredFunction {
    /// The function of the core.
    pub core: CoreFunction,
    /// Where two of its sites are one, if two are.
    pub shared: Option<Place>,
}

// That each decision has a number.
//
// Errors: there are 2^32 of them or more.
fn fitting(count: usize) -> Result<(), AllocError>
    ensures { OnOk result (count < 2 ^ 32) }
{
    if count > 0xffff_ffff {
        return Err(AllocError);
    }
    Ok(())
}

/// Lowers a function of a program.
///
/// Errors: there was not memory enough, or a number would be 2^32 or more.
pub fn lower_function(
    alloc: Global,
    program: &Program,
    choices: &ProgramChoices,
    function: &Function,
    known: Known,
) -> Result<LoweredFunction, AllocError>
    requires choices { AreChoices choices.now (program_view program.now) }
    requires number { slice_get (program_view program.now).functions known.number ≡ Some (function_view function.now) }
    ensures function { IfOk result (λ x. core_function_view x.core ≡ lowered_function (record { plain = λ g. known.plain; paths = λ g. known.paths; decisions = λ g. decisions_of (program_view program.now) known.number (function_view function.now); sites = λ g. table_of known.number function.now.place (placed_of known.number (function_view function.now)) (decisions_of (program_view program.now) known.number (function_view function.now)) }) (program_view program.now) known.number (function_view function.now)) }
    ensures few { IfOk result (λ x. length x.core.decisions < 2 ^ 32) }
    ensures shared { IfOk result (λ x. is_some x.shared ≡ not (is_apart known.number (function_view function.now))) }
{
    let temps = Temps::new(alloc, program, function)?;
    let out = lower_body(alloc, program, choices, function, known.number, &temps)?;
    fitting(out.decisions.len())?;
    let shared = shared_site(alloc, out.placed.as_slice())?;
    let name = Items::from_slice(alloc, function.name.as_slice())?;
    let locals = copy_names(alloc, function.locals.as_slice())?;
    let before = copy_formula(alloc, &function.before)?;
    let after = copy_formula(alloc, &function.after)?;
    let sites = table_of(
        alloc,
        known.number,
        function.place,
        out.placed.as_slice(),
        out.decisions.as_slice(),
    )?;
    let core = CoreFunction {
        name,
        place: function.place,
        params: function.params,
        locals,
        temps: temps.shapes,
        result: function.result,
        before,
        after,
        plain: known.plain,
        paths: known.paths,
        decisions: out.decisions,
        sites,
        body: out.code,
    };
    Ok(LoweredFunction { core, shared })
}
