//! What is asked of placements.

ghost use Rattle.std.specs.Prelude.{◌≡◌, map, slice_get};
ghost use Rattle.core_checks.specs.Placements.{kept_at, is_tracked, is_tested};
ghost use Rattle.check_placement.specs.Viewed.{placed_view, parts_in};
ghost use Rattle.check_placement.specs.Views.{guarded_view, placement_view};
ghost use Rattle.check_placement.specs.Putting.{Fits};

use crate::keys::{decision_key, site_key};
use crate::placing::Placed;
use crate::{Guarded, PlacedAt, Placement};
use gc0_base::{Decision, Site};
use sqlite_items::Items;

/// The placement of these sites and tracked functions.
pub fn placement_of(placed: Placed, tracked: Items<bool>) -> Placement
    requires { Fits placed }
    ensures { placement_view result ≡ record { sites = map placed_view placed.sites.items; tracked = tracked } }
{
    Placement {
        sites: Items::from_vec(placed.sites),
        tracked,
        keys: placed.keys,
        tested: placed.tested,
    }
}

// The parts of the site with an index, or none.
fn parts_at(sites: &[PlacedAt], index: usize) -> &[Guarded]
    ensures { result.now ≡ parts_in (slice_get sites.now index) }
{
    match sites.get(index) {
        None => &[],
        Some(placed) => placed.parts.as_slice(),
    }
}

impl Placement {
    /// The parts that are checked at a site, in order; none where nothing is checked. Takes the
    /// time of one look into a hash table.
    pub fn kept(&self, site: Site) -> &[Guarded]
        ensures { map guarded_view result.now ≡ kept_at (placement_view self.now) site }
    {
        match self.keys.get_index_of(&site_key(site)) {
            None => &[],
            Some(index) => parts_at(self.sites.as_slice(), index),
        }
    }

    /// Whether a function keeps track of what it owns.
    pub fn is_tracked(&self, function: u32) -> bool
        ensures { result ≡ is_tracked (placement_view self.now) function }
    {
        match self.tracked.get(function as usize) {
            None => false,
            Some(tracked) => *tracked,
        }
    }

    /// Whether some guard tests a decision. Takes the time of one look into a hash table.
    pub fn is_tested(&self, decision: Decision) -> bool
        ensures { result ≡ is_tested (placement_view self.now) decision }
    {
        self.tested.contains(&decision_key(decision))
    }
}
