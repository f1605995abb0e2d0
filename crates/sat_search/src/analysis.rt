//! What a conflict teaches: a clause with one literal of the last level, the first by which all
//! ways of that level lead to the conflict, and the hints by which it follows.
ghost use Rattle.std.specs.Prelude.{◌≡◌, ℕ, ◌+◌, ◌<◌, ◌≤◌, ◌⊎◌, ◌++◌, length, IfOk, OnOk, IfSome, IfNone, IsSome, Some, true, option_to_list, slice_get};
ghost use Rattle.std.specs.List.{Contains};
ghost use Rattle.sat_check.specs.Clauses.{ClausesAreBelow};
ghost use Rattle.sat_check.specs.Logs.{EntriesAreBelow, known_before};
ghost use Rattle.search_base.specs.Trails.{falses_of};
ghost use Rattle.search_base.specs.Propagation.{IsConflict};
ghost use Rattle.search_state.specs.Watches.{IsTrail};
ghost use Rattle.search_base.specs.Analysis.{IsLastLevel};
ghost use Rattle.sat_search.specs.Learning.{Learns, IsBase, IsLate, IsFalseAt, KeepIs};
ghost use Rattle.sat_search.specs.Marks.{IsReady};
ghost use Rattle.sat_check.specs.declared.clause.Lit.{Lit as OneLit};
ghost use Rattle.search_base.specs.declared.trail.Step.{Step as OneStep};

use crate::gathering::{Gathering, Levels};
use sat_check::{Clause, Entry, Hints, Lit, Lits};
use search_base::{Learned as Plain, Trail, analyze};
use search_state::PlacedTrail;
use std::alloc::{AllocError, Global};

/// A clause that follows, its literal of the last level, if it has one, and how much of the trail
/// before that level it speaks of.
#[derive(Drop)]
pub(crate) struct Learned {
    pub(crate) entry: Entry,
    pub(crate) asserting: Option<Lit>,
    pub(crate) keep: usize,
}

/// What was gathered of a conflict, and a trail for the walk that tries it.
#[derive(Drop)]
pub(crate) struct Analysis {
    pub(crate) gathering: Gathering,
    pub(crate) walk: Trail,
}

impl Analysis {
    pub(crate) fn new(alloc: Global, variables: u32) -> Result<Analysis, AllocError>
        ensures { IfOk result (IsReady variables) }
    {
        let gathering = Gathering::new(alloc, variables)?;
        let walk = Trail::new(alloc, variables)?;
        Ok(Analysis { gathering, walk })
    }

    // Learns what was gathered, if that is right.
    fn learned(
        &mut self,
        alloc: Global,
        placed: &PlacedTrail,
        clauses: &[Clause],
        entries: &[Entry],
        levels: Levels,
    ) -> Result<Option<Learned>, AllocError>
        requires ready { IsReady (length placed.now.trail.slots.items) self.old }
        requires clauses_below { ClausesAreBelow (length placed.now.trail.slots.items) clauses.now }
        requires entries_below { EntriesAreBelow (length placed.now.trail.slots.items) entries.now }
        ensures ready { OnOk result (IsReady (length placed.now.trail.slots.items) self.new) }
        ensures leveled { IfOk result (λ found. IfSome found (λ learned. IsSome learned.asserting → levels.base < length placed.now.trail.steps.items)) }
        ensures learns { IfOk result (λ found. IfSome found (λ learned. Learns (known_before clauses.now entries.now) placed.now.trail.steps.items levels.start learned.entry.clause.lits learned.entry.hints learned.asserting learned.keep)) }
    {
        let asserting = self.gathering.asserting;
        if !is_late(placed, asserting, levels) {
            return Ok(None);
        }
        let kept = self.gathering.kept.as_slice();
        let Some(keep) = keep_of(placed, kept, levels.start) else {
            return Ok(None);
        };
        let lits = lits_of(alloc, kept, asserting)?;
        let reasons = self.gathering.reasons.as_slice();
        let hints = self
            .walk
            .walk(alloc, clauses, entries, lits.as_slice(), reasons)?;
        let Some(hints) = hints else {
            return Ok(None);
        };
        let clause = Clause {
            lits: Lits::from_vec(lits),
        };
        let hints = Hints::from_vec(hints);
        Ok(Some(Learned {
            entry: Entry { clause, hints },
            asserting,
            keep,
        }))
    }

    /// Learns from a clause that is false.
    pub(crate) fn analyze(
        &mut self,
        alloc: Global,
        placed: &PlacedTrail,
        clauses: &[Clause],
        entries: &[Entry],
        conflict: u32,
        levels: Levels,
    ) -> Result<Learned, AllocError>
        requires trail { IsTrail (known_before clauses.now entries.now) placed.now }
        requires ready { IsReady (length placed.now.trail.slots.items) self.old }
        requires last_level { IsLastLevel placed.now.trail.steps.items levels.start }
        requires base { IsBase placed.now.trail.steps.items levels.base }
        requires conflict { IsConflict (known_before clauses.now entries.now) (falses_of placed.now.trail.steps.items) conflict }
        requires clauses_below { ClausesAreBelow (length placed.now.trail.slots.items) clauses.now }
        requires entries_below { EntriesAreBelow (length placed.now.trail.slots.items) entries.now }
        ensures leveled { IfOk result (λ learned. IsSome learned.asserting → levels.base < length placed.now.trail.steps.items) }
        ensures ready { OnOk result (IsReady (length placed.now.trail.slots.items) self.new) }
        ensures learns { IfOk result (λ learned. Learns (known_before clauses.now entries.now) placed.now.trail.steps.items levels.start learned.entry.clause.lits learned.entry.hints learned.asserting learned.keep) }
    {
        self.gathering
            .gather(placed, clauses, entries, conflict, levels)?;
        let found = self.learned(alloc, placed, clauses, entries, levels)?;
        if let Some(learned) = found {
            return Ok(learned);
        }
        let learned = analyze_plainly(alloc, placed, clauses, entries, conflict, levels)?;
        Ok(learned)
    }
}

// The place at which a literal became false, if it did.
fn place_of(placed: &PlacedTrail, lit: Lit) -> Option<usize>
    ensures { IfSome result (λ place. IsFalseAt placed.now.trail.steps.items lit place) }
{
    let place = *placed.places.get(lit.variable as usize)?;
    let step = placed.trail.steps.get(place)?;
    if step.falsified == lit {
        Some(place)
    } else {
        None
    }
}

// Whether the literal, if there is one, became false on the last level, and by a decision or later.
fn is_late(placed: &PlacedTrail, asserting: Option<Lit>, levels: Levels) -> bool
    ensures { result ≡ true → (lit : OneLit) → asserting ≡ Some lit → IsLate placed.now.trail.steps.items levels.start lit × (levels.base < length placed.now.trail.steps.items) }
{
    let Some(lit) = asserting else {
        return true;
    };
    let Some(place) = place_of(placed, lit) else {
        return false;
    };
    levels.start <= place && levels.base <= place
}

// How much of the trail the literals speak of, if they all became false before `start`.
fn keep_of(placed: &PlacedTrail, lits: &[Lit], start: usize) -> Option<usize>
    ensures { IfSome result (KeepIs placed.now.trail.steps.items lits.now start) }
{
    let mut keep = 0;
    for lit in lits {
        let place = place_of(placed, *lit)?;
        if place >= start {
            return None;
        }
        keep = later(keep, place);
    }
    Some(keep)
}

fn later(keep: usize, place: usize) -> usize
    requires { place < 18446744073709551615 }
    ensures { ((keep ≤ place) × (result ≡ place + 1)) ⊎ ((place < keep) × (result ≡ keep)) }
{
    if place >= keep { place + 1 } else { keep }
}

fn lits_of(alloc: Global, kept: &[Lit], asserting: Option<Lit>) -> Result<Vec<Lit>, AllocError>
    ensures { IfOk result (λ lits. lits.items ≡ kept.now ++ option_to_list asserting) }
{
    let mut lits = Vec::with_capacity(alloc, kept.len() + 1)?;
    lits.extend_from_slice(kept)?;
    if let Some(lit) = asserting {
        lits.push(lit)?;
    }
    Ok(lits)
}

// Learns as the plain search does, where nothing else was right.
fn analyze_plainly(
    alloc: Global,
    placed: &PlacedTrail,
    clauses: &[Clause],
    entries: &[Entry],
    conflict: u32,
    levels: Levels,
) -> Result<Learned, AllocError>
    requires trail { IsTrail (known_before clauses.now entries.now) placed.now }
    requires last_level { IsLastLevel placed.now.trail.steps.items levels.start }
    requires base { IsBase placed.now.trail.steps.items levels.base }
    requires conflict { IsConflict (known_before clauses.now entries.now) (falses_of placed.now.trail.steps.items) conflict }
    requires clauses_below { ClausesAreBelow (length placed.now.trail.slots.items) clauses.now }
    requires entries_below { EntriesAreBelow (length placed.now.trail.slots.items) entries.now }
    ensures leveled { IfOk result (λ learned. IsSome learned.asserting → levels.base < length placed.now.trail.steps.items) }
    ensures learns { IfOk result (λ learned. Learns (known_before clauses.now entries.now) placed.now.trail.steps.items levels.start learned.entry.clause.lits learned.entry.hints learned.asserting learned.keep) }
{
    let Plain { entry, keep } = analyze(
        alloc,
        &placed.trail,
        clauses,
        entries,
        conflict,
        levels.start,
        levels.base,
    )?;
    let asserting = decision_among(placed, entry.clause.lits.as_slice(), levels);
    Ok(Learned {
        entry,
        asserting,
        keep,
    })
}

// The decision of the last level, if the literals have it.
fn decision_among(placed: &PlacedTrail, lits: &[Lit], levels: Levels) -> Option<Lit>
    ensures some { IfSome result (λ lit. Contains lits.now lit × IsFalseAt placed.now.trail.steps.items lit levels.start × (levels.base ≤ levels.start)) }
    ensures none { IfNone result ((step : OneStep) → slice_get placed.now.trail.steps.items levels.start ≡ Some step → levels.base ≤ levels.start → ¬ Contains lits.now step.falsified) }
{
    if levels.start < levels.base {
        return None;
    }
    let decision = placed.trail.steps.get(levels.start)?.falsified;
    if lits.contains(&decision) {
        Some(decision)
    } else {
        None
    }
}
