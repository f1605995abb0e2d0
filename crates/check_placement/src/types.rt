//! Placements.

ghost use Rattle.std.specs.Prelude.{◌≡◌, map};
ghost use Rattle.gc0_base.specs.declared.site.Decision.{Decision};
ghost use Rattle.core_checks.specs.Placements.{sites_test};
ghost use Rattle.check_placement.specs.FoundBy.{has_decision};
ghost use Rattle.check_placement.specs.Viewed.{placed_view, keys_of};

use crate::keys::{DecisionKey, SiteKey};
use gc0_base::{Decision, Part, Site};
use indexmap::IndexSet;
use sqlite_items::Items;

/// A part behind one guard for each decision.
#[derive(Drop)]
pub struct Guarded {
    /// The decisions, each with the outcome that it is to have had last.
    pub decisions: Items<(Decision, bool)>,
    /// What is checked there.
    pub part: Part,
}

/// What is checked at a site, in order.
#[derive(Drop)]
pub struct PlacedAt {
    /// The site.
    pub site: Site,
    /// Its parts.
    pub parts: Items<Guarded>,
}

/// Where parts are checked, and which functions keep track of what they own.
#[derive(Drop)]
pub struct Placement {
    /// The sites where parts are checked.
    pub sites: Items<PlacedAt>,
    /// Whether a function keeps track of what it owns, by number.
    pub tracked: Items<bool>,
    // the keys of the sites, in the same order
    pub(crate) keys: IndexSet<SiteKey>,
    // the decisions that some guard tests
    pub(crate) tested: IndexSet<DecisionKey>,
    ghost keys_right: { keys.keys ≡ keys_of sites },
    ghost tests: { (d : Decision) → has_decision d tested.keys ≡ sites_test d (map placed_view sites) },
}
