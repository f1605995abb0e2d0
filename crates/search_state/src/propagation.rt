//! Propagation: what follows from the values by the clauses, one literal after another.
ghost use Rattle.std.specs.Prelude.{◌≡◌, ℕ, ◌+◌, ◌<◌, ◌≤◌, ◌≢◌, ◌⊎◌, ◌++◌, ◌∷◌, [], length, take, IfOk, IfSome, IfNone, IsTrue, OnOk, ◌↔◌, List, Some, None, slice_get};
ghost use Rattle.std.specs.List.{Contains};
ghost use Rattle.sat_check.specs.Clauses.{AreBelow, ClausesAreBelow, opposite_of};
ghost use Rattle.sat_check.specs.Logs.{EntriesAreBelow, known_before};
ghost use Rattle.search_base.specs.Trails.{Shows, falses_of};
ghost use Rattle.search_state.specs.Watches.{IsTrail, AreWatched, AllGuarded, watchers_of};
ghost use Rattle.search_state.specs.Looks.{OtherIs, IsLookedAt, IsRewatched, LookIs, PassIs, Propagates};
ghost use Rattle.sat_check.specs.declared.clause.Lit.{Lit as OneLit};

use crate::placed::PlacedTrail;
use crate::watches::{Pair, Watcher, Watches};
use sat_check::{Clause, Entry, Lit, named};
use search_base::Slot;
use std::alloc::AllocError;

/// What a look at a watcher comes to.
#[derive(Clone, Copy)]
pub(crate) enum Look {
    /// It stays in its list.
    Stays,
    /// It was taken out of its list, and the last took its place.
    Leaves,
    /// The clause of that number is false.
    Conflict(u32),
}

/// Whether the literal is false.
pub(crate) fn is_false(slots: &[Slot], lit: Lit) -> bool
    requires { lit.variable < length slots.now }
    ensures { (falses : List OneLit) → Shows slots.now falses → IsTrue result ↔ Contains falses lit }
{
    let slot = slots[lit.variable as usize];
    slot.assigned && slot.positive == lit.positive
}

/// Whether the literal is true.
pub(crate) fn is_true(slots: &[Slot], lit: Lit) -> bool
    requires { lit.variable < length slots.now }
    ensures { (falses : List OneLit) → Shows slots.now falses → IsTrue result ↔ Contains falses (opposite_of lit) }
{
    is_false(slots, lit.opposite())
}

// The literal that is watched beside this one, if this one is watched.
fn other_of(pair: Pair, lit: Lit) -> Option<Lit>
    ensures { OtherIs pair lit result }
{
    if pair.first == pair.second {
        None
    } else if pair.first == lit {
        Some(pair.second)
    } else if pair.second == lit {
        Some(pair.first)
    } else {
        None
    }
}

// The first literal but this one that isn't false.
fn replacement(slots: &[Slot], lits: &[Lit], other: Lit) -> Option<Lit>
    requires { AreBelow (length slots.now) lits.now }
    ensures found { IfSome result (λ lit. Contains lits.now lit × (lit ≢ other) × ((falses : List OneLit) → Shows slots.now falses → ¬ Contains falses lit)) }
    ensures none { IfNone result ((falses : List OneLit) → Shows slots.now falses → (lit : OneLit) → Contains lits.now lit → (lit ≡ other) ⊎ Contains falses lit) }
{
    for lit in lits {
        if *lit != other && !is_false(slots, *lit) {
            return Some(*lit);
        }
    }
    None
}

impl Watches {
    // Looks at the watcher at that place of the list of a literal that became false.
    fn look(
        &mut self,
        placed: &mut PlacedTrail,
        clauses: &[Clause],
        entries: &[Entry],
        falsified: Lit,
        place: usize,
    ) -> Result<Look, AllocError>
        requires trail { IsTrail (known_before clauses.now entries.now) placed.old }
        requires watched { AreWatched (length placed.old.trail.slots.items) (known_before clauses.now entries.now) self.old }
        requires is_false { Contains (falses_of placed.old.trail.steps.items) falsified }
        requires within { place < length (watchers_of self.old falsified) }
        requires clauses_below { ClausesAreBelow (length placed.old.trail.slots.items) clauses.now }
        requires entries_below { EntriesAreBelow (length placed.old.trail.slots.items) entries.now }
        ensures { IfOk result (LookIs (known_before clauses.now entries.now) placed.old placed.new self.old self.new falsified place) }
    {
        let watcher = self.of(falsified)[place];
        if is_true(placed.trail.slots.as_slice(), watcher.blocker) {
            return Ok(Look::Stays);
        }
        let pair = self.pairs[watcher.index as usize];
        let Some(other) = other_of(pair, falsified) else {
            self.remove(falsified, place);
            return Ok(Look::Leaves);
        };
        if is_true(placed.trail.slots.as_slice(), other) {
            self.block(falsified, place, other);
            return Ok(Look::Stays);
        }
        let look = self.look_on(
            placed,
            clauses,
            entries,
            falsified,
            place,
            watcher.index,
            other,
        )?;
        Ok(look)
    }

    // Looks at the clause itself, of which the other literal that it watches isn't true.
    fn look_on(
        &mut self,
        placed: &mut PlacedTrail,
        clauses: &[Clause],
        entries: &[Entry],
        falsified: Lit,
        place: usize,
        index: u32,
        other: Lit,
    ) -> Result<Look, AllocError>
        requires trail { IsTrail (known_before clauses.now entries.now) placed.old }
        requires watched { AreWatched (length placed.old.trail.slots.items) (known_before clauses.now entries.now) self.old }
        requires is_false { Contains (falses_of placed.old.trail.steps.items) falsified }
        requires at { IsLookedAt self.old falsified place index other }
        requires not_true { ¬ Contains (falses_of placed.old.trail.steps.items) (opposite_of other) }
        requires clauses_below { ClausesAreBelow (length placed.old.trail.slots.items) clauses.now }
        requires entries_below { EntriesAreBelow (length placed.old.trail.slots.items) entries.now }
        ensures { IfOk result (LookIs (known_before clauses.now entries.now) placed.old placed.new self.old self.new falsified place) }
    {
        let Some(lits) = named(clauses, entries, index) else {
            unreachable!()
        };
        if let Some(lit) = replacement(placed.trail.slots.as_slice(), lits, other) {
            self.rewatch(falsified, place, index, other, lit)?;
            return Ok(Look::Leaves);
        }
        if is_false(placed.trail.slots.as_slice(), other) {
            return Ok(Look::Conflict(index));
        }
        placed.assign(other.opposite(), Some(index))?;
        Ok(Look::Stays)
    }

    // The clause watches another literal from now on in place of the one that became false.
    fn rewatch(
        &mut self,
        falsified: Lit,
        place: usize,
        index: u32,
        other: Lit,
        lit: Lit,
    ) -> Result<(), AllocError>
        requires falsified_positive { falsified.variable < length self.old.positive.items }
        requires falsified_negative { falsified.variable < length self.old.negative.items }
        requires positive { lit.variable < length self.old.positive.items }
        requires negative { lit.variable < length self.old.negative.items }
        requires within { place < length (watchers_of self.old falsified) }
        requires index { index < length self.old.pairs.items }
        requires apart { lit ≢ falsified }
        ensures { OnOk result (IsRewatched self.old self.new falsified place index other lit) }
    {
        self.push(
            lit,
            Watcher {
                index,
                blocker: other,
            },
        )?;
        self.remove(falsified, place);
        let aside = self.pairs[index as usize].aside;
        self.pairs[index as usize] = Pair {
            first: other,
            second: lit,
            aside,
        };
        Ok(())
    }

    // Looks at each clause that watches a literal that became false, up to the first conflict.
    fn pass(
        &mut self,
        placed: &mut PlacedTrail,
        clauses: &[Clause],
        entries: &[Entry],
        falsified: Lit,
    ) -> Result<Option<u32>, AllocError>
        requires trail { IsTrail (known_before clauses.now entries.now) placed.old }
        requires watched { AreWatched (length placed.old.trail.slots.items) (known_before clauses.now entries.now) self.old }
        requires is_false { Contains (falses_of placed.old.trail.steps.items) falsified }
        requires clauses_below { ClausesAreBelow (length placed.old.trail.slots.items) clauses.now }
        requires entries_below { EntriesAreBelow (length placed.old.trail.slots.items) entries.now }
        ensures { IfOk result (PassIs (known_before clauses.now entries.now) placed.old placed.new self.old self.new falsified) }
    {
        let mut place = 0;
        while place < self.of(falsified).len() {
            match self.look(placed, clauses, entries, falsified, place)? {
                Look::Stays => place += 1,
                Look::Leaves => {}
                Look::Conflict(index) => return Ok(Some(index)),
            }
        }
        Ok(None)
    }

    /// Propagates the steps from `head` on, and those that come of them, and gives the number of a
    /// clause that is false.
    pub fn propagate(
        &mut self,
        placed: &mut PlacedTrail,
        clauses: &[Clause],
        entries: &[Entry],
        mut head: usize,
    ) -> Result<Option<u32>, AllocError>
        requires trail { IsTrail (known_before clauses.now entries.now) placed.old }
        requires watched { AreWatched (length placed.old.trail.slots.items) (known_before clauses.now entries.now) self.old }
        requires within { head ≤ length placed.old.trail.steps.items }
        requires guarded { AllGuarded (known_before clauses.now entries.now) self.old.pairs.items (falses_of placed.old.trail.steps.items) (falses_of (take head placed.old.trail.steps.items)) }
        requires clauses_below { ClausesAreBelow (length placed.old.trail.slots.items) clauses.now }
        requires entries_below { EntriesAreBelow (length placed.old.trail.slots.items) entries.now }
        ensures { IfOk result (Propagates (known_before clauses.now entries.now) placed.old placed.new self.old self.new) }
    {
        while head < placed.trail.steps.len() {
            let falsified = placed.trail.steps[head].falsified;
            if let Some(conflict) = self.pass(placed, clauses, entries, falsified)? {
                return Ok(Some(conflict));
            }
            head += 1;
        }
        Ok(None)
    }
}
