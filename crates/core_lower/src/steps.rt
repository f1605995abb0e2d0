//! What several forms of statements write.

ghost use Rattle.std.specs.Prelude.{◌≡◌, [], length, OnOk};
ghost use Rattle.core_tree.specs.CoreTree.{do_step, no_code};
ghost use Rattle.core_tree.specs.declared.Phase.TheVariants.{Consume};
ghost use Rattle.lowering_laws.specs.Counts.{Counts, fresh, decided};
ghost use Rattle.lowering_laws.specs.Trees.{one};
ghost use Rattle.lowering_laws.specs.Counts.{choices_in};
ghost use Rattle.lowering_laws.specs.Tables.{formula_decisions};
ghost use Rattle.core_expressions.specs.Writing.{IsWithin, function_of, StandsFor, IsWritten};
ghost use Rattle.core_lower.specs.Parts.{IsNumbered};

use core_expressions::{Within, Written};
use core_tree::{CoreStmt, Phase};
use gc0_base::Site;
use std::alloc::AllocError;

// Begins a statement: its step, and no temporary is used yet.
pub fn begin(out: &mut Written) -> Result<(), AllocError>
    ensures { OnOk result (IsWritten out.old out.new (fresh (length out.old.decisions)) (one do_step) [] []) }
{
    out.temps.clear();
    out.push(CoreStmt::Step)
}

// Takes the decisions of the function's `ensures`, which is shown at a site.
pub fn decide_after(within: &Within<'_>, out: &mut Written, site: Site) -> Result<(), AllocError>
    requires within { IsWithin within.now }
    requires number { IsNumbered within.now }
    ensures { (c : Counts) → StandsFor out.old c → OnOk result (IsWritten out.old out.new (decided (choices_in (function_of within.now).after) c) no_code (formula_decisions site Consume (function_of within.now).after) []) }
{
    match within.choices.after.get(within.number as usize) {
        None => Err(AllocError),
        Some(places) => out.decide(site, Phase::Consume, places.as_slice()),
    }
}
