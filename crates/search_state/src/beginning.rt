//! The first look at each clause.
ghost use Rattle.std.specs.Prelude.{◌≡◌, ℕ, ◌<◌, ◌^◌, ◌⊎◌, [], length, IfOk, OnOk, List, take, Some, None, true, false};
ghost use Rattle.sat_check.specs.Clauses.{AreBelow, ClausesAreBelow};
ghost use Rattle.sat_check.specs.Logs.{known_before};
ghost use Rattle.search_base.specs.Trails.{Shows};
ghost use Rattle.search_state.specs.Watches.{IsTrail, AreWatched, WatchesMore};
ghost use Rattle.search_state.specs.Beginning.{StandingIs, StandingIsBelow, IsAdded, AreAdded, HasBegun};
ghost use Rattle.sat_check.specs.declared.clause.Lit.{Lit as OneLit};

use crate::placed::PlacedTrail;
use crate::propagation::{is_false, is_true};
use crate::watches::{Pair, Watches};
use sat_check::{Clause, Lit};
use search_base::Slot;
use std::alloc::AllocError;

/// What the values make of a clause: all literals are false, but for one without a value, or one
/// is true, or two have no value.
#[derive(Clone, Copy)]
pub enum Standing {
    AllFalse,
    Single(Lit),
    True(Lit),
    Open(Lit, Lit),
}

/// What the values make of a clause. A literal that is true, or two that have no value, settle it.
pub fn standing_of(slots: &[Slot], lits: &[Lit]) -> Standing
    requires { AreBelow (length slots.now) lits.now }
    ensures standing { (falses : List OneLit) → Shows slots.now falses → StandingIs falses lits.now result }
    ensures below { StandingIsBelow (length slots.now) result }
{
    let mut single: Option<Lit> = None;
    for lit in lits {
        if is_true(slots, *lit) {
            return Standing::True(*lit);
        }
        if !is_false(slots, *lit) {
            let first = single.unwrap_or(*lit);
            if first != *lit {
                return Standing::Open(first, *lit);
            }
            single = Some(*lit);
        }
    }
    match single {
        Some(lit) => Standing::Single(lit),
        None => Standing::AllFalse,
    }
}

impl Watches {
    // The clause of that number, which is the next, watches nothing.
    fn skip(&mut self, index: u32, lit: Lit) -> Result<(), AllocError>
        ensures { OnOk result (WatchesMore self.old self.new index (record { first = lit; second = lit; aside = false })) }
    {
        let _ = index;
        self.pairs.push(Pair {
            first: lit,
            second: lit,
            aside: false,
        })?;
        Ok(())
    }

    // Looks at the next clause. `true` says that it is false.
    fn add(
        &mut self,
        placed: &mut PlacedTrail,
        clauses: &[Clause],
        index: u32,
    ) -> Result<bool, AllocError>
        requires trail { IsTrail (known_before clauses.now []) placed.old }
        requires watched { AreWatched (length placed.old.trail.slots.items) (take index clauses.now) self.old }
        requires index { index < length clauses.now }
        requires below { ClausesAreBelow (length placed.old.trail.slots.items) clauses.now }
        ensures { IfOk result (IsAdded clauses.now placed.old placed.new self.old self.new index) }
    {
        let lits = clauses[index as usize].lits.as_slice();
        match standing_of(placed.trail.slots.as_slice(), lits) {
            Standing::AllFalse => {
                self.skip(index, NO_LITERAL)?;
                Ok(true)
            }
            Standing::Single(lit) => {
                self.skip(index, lit)?;
                placed.assign(lit.opposite(), Some(index))?;
                Ok(false)
            }
            Standing::True(lit) => {
                self.skip(index, lit)?;
                Ok(false)
            }
            Standing::Open(first, second) => {
                let pair = Pair {
                    first,
                    second,
                    aside: false,
                };
                self.watch(index, pair)?;
                Ok(false)
            }
        }
    }

    // Looks at each clause, and gives the number of the first that is false.
    fn add_all(
        &mut self,
        placed: &mut PlacedTrail,
        clauses: &[Clause],
    ) -> Result<Option<u32>, AllocError>
        requires trail { IsTrail (known_before clauses.now []) placed.old }
        requires watched { AreWatched (length placed.old.trail.slots.items) [] self.old }
        requires few { length clauses.now < 2 ^ 32 }
        requires below { ClausesAreBelow (length placed.old.trail.slots.items) clauses.now }
        ensures { IfOk result (AreAdded clauses.now placed.old placed.new self.new) }
    {
        let mut conflict = None;
        for index in 0..clauses.len() {
            let is_false = self.add(placed, clauses, index as u32)?;
            conflict = first_of(conflict, is_false, index as u32);
        }
        Ok(conflict)
    }

    /// Looks at each clause, propagates what follows, and gives the number of one that is false.
    pub fn first_conflict(
        &mut self,
        placed: &mut PlacedTrail,
        clauses: &[Clause],
    ) -> Result<Option<u32>, AllocError>
        requires trail { IsTrail (known_before clauses.now []) placed.old }
        requires steps { placed.old.trail.steps.items ≡ [] }
        requires watched { AreWatched (length placed.old.trail.slots.items) [] self.old }
        requires few { length clauses.now < 2 ^ 32 }
        requires below { ClausesAreBelow (length placed.old.trail.slots.items) clauses.now }
        ensures { IfOk result (HasBegun clauses.now placed.old placed.new self.new) }
    {
        let begun = self.add_all(placed, clauses)?;
        if begun.is_some() {
            return Ok(begun);
        }
        let conflict = self.propagate(placed, clauses, &[], 0)?;
        Ok(conflict)
    }
}

// The conflict that was found before, or else this clause, if it is false.
fn first_of(conflict: Option<u32>, is_false: bool, index: u32) -> Option<u32>
    ensures none { result ≡ None → (conflict ≡ None) × (is_false ≡ false) }
    ensures some { (found : ℕ) → result ≡ Some found → (conflict ≡ Some found) ⊎ ((is_false ≡ true) × (index ≡ found)) }
{
    if conflict.is_some() {
        return conflict;
    }
    if is_false { Some(index) } else { None }
}

/// A literal for a clause that watches none.
pub const NO_LITERAL: Lit = Lit {
    variable: 0,
    positive: false,
};
