//! The parts of a record at their sites, entry by entry.

ghost use Rattle.std.specs.Prelude.{◌≡◌, ◌++◌, ◌||◌, ◌&&◌, not, map, IfOk, OnOk};
ghost use Rattle.gc0_base.specs.declared.site.Site.{Site};
ghost use Rattle.gc0_base.specs.declared.site.Part.{Part};
ghost use Rattle.gc0_base.specs.declared.site.Decision.{Decision};
ghost use Rattle.core_checks.specs.Placements.{is_free, is_kept_free, known_tests};
ghost use Rattle.assumption_log.specs.Records.{kept_view};
ghost use Rattle.check_placement.specs.FoundBy.{has_pair_key, has_decision};
ghost use Rattle.check_placement.specs.Viewed.{keys_of};
ghost use Rattle.check_placement.specs.Putting.{put_in, Fits, Puts, IsPlaced};

use crate::keys::{DecisionKey, SiteKey, decision_key, site_key};
use crate::{Guarded, PlacedAt};
use assumption_log::{Kept, PairKey, pair_key};
use gc0_base::{Decision, Part, Site};
use indexmap::IndexSet;
use sqlite_items::Items;
use std::alloc::{AllocError, Global};

/// The sites with their parts, and what finds them.
#[derive(Drop)]
pub struct Placed {
    /// The sites where parts are checked.
    pub sites: Vec<PlacedAt>,
    /// The keys of these sites, in the same order.
    pub keys: IndexSet<SiteKey>,
    /// The decisions that some guard tests.
    pub tested: IndexSet<DecisionKey>,
}

/// The parts of entries at their sites, without those guarded ones that are kept free of decisions
/// too.
///
/// Errors: there was not memory enough.
pub fn place_all(alloc: Global, entries: &[Kept]) -> Result<Placed, AllocError>
    ensures { IfOk result (IsPlaced (map kept_view entries.now)) }
{
    let free = free_pairs(alloc, entries)?;
    let mut placed = Placed {
        sites: Vec::new(alloc),
        keys: IndexSet::new(alloc),
        tested: IndexSet::new(alloc),
    };
    for entry in entries {
        if is_placed(entry, &free) {
            put(alloc, &mut placed, entry)?;
        }
    }
    Ok(placed)
}

// The pairs of a site and a part that an entry without decisions keeps.
fn free_pairs(alloc: Global, entries: &[Kept]) -> Result<IndexSet<PairKey>, AllocError>
    ensures { IfOk result (λ free. (site : Site) (part : Part) → has_pair_key site part free.keys ≡ is_kept_free (map kept_view entries.now) site part) }
{
    let mut free = IndexSet::new(alloc);
    let mut left = entries.len();
    while left > 0 {
        left -= 1;
        let entry = &entries[left];
        if entry.decisions.is_empty() {
            free.insert(pair_key(entry.site, entry.part))?;
        }
    }
    Ok(free)
}

// Whether an entry has no decisions, or none without decisions keeps the same.
fn is_placed(entry: &Kept, free: &IndexSet<PairKey>) -> bool
    ensures { result ≡ (is_free entry.now.decisions || not (has_pair_key entry.now.site entry.now.part free.now.keys)) }
{
    entry.decisions.is_empty() || !free.contains(&pair_key(entry.site, entry.part))
}

fn put(alloc: Global, placed: &mut Placed, entry: &Kept) -> Result<(), AllocError>
    requires { Fits placed.old }
    ensures { OnOk result (Puts placed.old entry.now placed.new) }
{
    let decisions = Items::from_slice(alloc, entry.decisions.as_slice())?;
    let guarded = Guarded {
        decisions,
        part: entry.part,
    };
    put_part(
        alloc,
        &mut placed.sites,
        &mut placed.keys,
        entry.site,
        guarded,
    )?;
    test_all(&mut placed.tested, entry.decisions.as_slice())
}

// A part behind those of its site.
fn put_part(
    alloc: Global,
    sites: &mut Vec<PlacedAt>,
    keys: &mut IndexSet<SiteKey>,
    site: Site,
    guarded: Guarded,
) -> Result<(), AllocError>
    requires { keys.old.keys ≡ keys_of sites.old.items }
    ensures sites { OnOk result (sites.new.items ≡ put_in sites.old.items site guarded) }
    ensures keys { OnOk result (keys.new.keys ≡ keys_of sites.new.items) }
{
    let (index, added) = keys.insert_full(site_key(site))?;
    if added {
        let parts = Items::new(alloc);
        sites.push(PlacedAt { site, parts })?;
    }
    sites[index].parts.push(guarded)?;
    Ok(())
}

// Decisions among those that some guard tests.
fn test_all(
    tested: &mut IndexSet<DecisionKey>,
    decisions: &[(Decision, bool)],
) -> Result<(), AllocError>
    ensures { OnOk result ((d : Decision) → has_decision d tested.new.keys ≡ (has_decision d tested.old.keys || known_tests d decisions.now)) }
{
    for decision in decisions {
        tested.insert(decision_key(decision.0))?;
    }
    Ok(())
}
