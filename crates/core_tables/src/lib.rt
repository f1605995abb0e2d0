//! The table of a function's sites: what the core keeps of each, found by its kind and its number.
#![tactic(auto)]

mod apart;
mod choices;
mod rows;

ghost use Rattle.std.specs.Prelude.{◌≡◌, IfOk};
ghost use Rattle.core_tables.specs.SiteTables.{table_of};

use crate::choices::start_row;
use crate::rows::rows_of;
pub use apart::shared_site;
pub use choices::append_choices;
use core_tree::{DecisionAt, SiteTable};
use gc0_base::{Kind, Place, Site};
use std::alloc::{AllocError, Global};

/// A site of the code of a function.
#[derive(Clone, Copy, Debug, PartialEq, Eq)]
pub struct PlacedSite {
    /// The site.
    pub site: Site,
    /// The number of the callee at a call, of the predicate at a fold or an unfold, and of the
    /// text at an `error`.
    pub about: Option<u32>,
    /// Where its token stands.
    pub place: Place,
}

/// The table of the sites of a function with this number, whose name stands at `start`, from the
/// sites of its code and its decisions, both in the order of the code. Where the code names a site
/// twice, the first counts.
///
/// Errors: there was not memory enough, or there are 2^32 decisions or more.
pub fn table_of(
    alloc: Global,
    function: u32,
    start: Place,
    placed: &[PlacedSite],
    decisions: &[DecisionAt],
) -> Result<SiteTable, AllocError>
    ensures { IfOk result (λ t. t ≡ table_of function start placed.now decisions.now) }
{
    if decisions.len() > u32::MAX as usize {
        return Err(AllocError);
    }
    let calls = rows_of(alloc, function, Kind::Requires, start, placed, decisions)?;
    let returns = rows_of(alloc, function, Kind::Ensures, start, placed, decisions)?;
    let entry = rows_of(alloc, function, Kind::Entry, start, placed, decisions)?;
    let again = rows_of(alloc, function, Kind::Again, start, placed, decisions)?;
    let asserts = rows_of(alloc, function, Kind::Assert, start, placed, decisions)?;
    let folds = rows_of(alloc, function, Kind::Fold, start, placed, decisions)?;
    let unfolds = rows_of(alloc, function, Kind::Unfold, start, placed, decisions)?;
    let accesses = rows_of(alloc, function, Kind::Access, start, placed, decisions)?;
    let traps = rows_of(alloc, function, Kind::Trap, start, placed, decisions)?;
    Ok(SiteTable {
        start: start_row(function, start, decisions),
        calls,
        returns,
        entry,
        again,
        asserts,
        folds,
        unfolds,
        accesses,
        traps,
    })
}
