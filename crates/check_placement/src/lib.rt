//! Where the parts that are kept are checked, behind which guards, and which functions keep track
//! of what they own.
#![tactic(auto)]

mod keys;
mod lookup;
mod placing;
#[cfg(test)]
mod tests;
mod tracking;
mod types;

ghost use Rattle.std.specs.Prelude.{IfOk};
ghost use Rattle.core_tree.specs.CoreViews.{core_view};
ghost use Rattle.core_meaning.specs.Stepped.{IsStepped};
ghost use Rattle.core_checks.specs.Placements.{IsPlacement};
ghost use Rattle.assumption_log.specs.Records.{record_view};
ghost use Rattle.check_placement.specs.Views.{placement_view};

use assumption_log::Record;
use core_tree::Core;
use lookup::placement_of;
use placing::place_all;
use std::alloc::{AllocError, Global};
use tracking::tracked_functions;
pub use types::{Guarded, PlacedAt, Placement};

/// The placement of a record: the parts at each site in the order of the record, without those
/// guarded ones that are kept free of decisions too. A function is tracked where it isn't plain or
/// reaches one with a kept part. Takes the time of the record and of some walks over the core, no
/// more of them than calls are nested.
///
/// Errors: there was not memory enough.
pub fn place(alloc: Global, core: &Core, kept: &Record) -> Result<Placement, AllocError>
    ensures { IsStepped (core_view core.now) → IfOk result (λ p. IsPlacement (core_view core.now) (record_view kept.now) (placement_view p)) }
{
    let entries = kept.entries.as_slice();
    let tracked = tracked_functions(alloc, core, entries)?;
    let placed = place_all(alloc, entries)?;
    Ok(placement_of(placed, tracked))
}
