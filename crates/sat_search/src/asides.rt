//! Entries that are set aside, so that the propagation leaves them out, and such that are taken up.
ghost use Rattle.std.specs.Prelude.{◌≡◌, ◌<◌, length, IfOk, OnOk, Some, slice_get};
ghost use Rattle.sat_check.specs.Clauses.{ClausesAreBelow};
ghost use Rattle.sat_check.specs.Logs.{known_before, IsNew, Follows};
ghost use Rattle.sat_check.specs.Clauses.{AreBelow};
ghost use Rattle.search_state.specs.Shelves.{IsAside};
ghost use Rattle.sat_search.specs.Turns.{Holds, LearnedIs, TakenIs, IsKeptAside, IsReduced};

use crate::solver::{Learning, Solver, next_index};
use sat_check::{Clause, Entry, named};
use search_state::{NO_LITERAL, Pair, Standing, standing_of};
use std::alloc::{AllocError, Global};

impl Solver {
    /// Takes back all decisions, and lets the clause of that number, which was set aside, watch
    /// again. `base` is where the first level begins.
    pub(crate) fn take_up(
        &mut self,
        clauses: &[Clause],
        number: u32,
        base: usize,
    ) -> Result<Learning, AllocError>
        requires state { Holds clauses.now self.old }
        requires base { slice_get self.old.levels.items 0 ≡ Some base }
        requires aside { IsAside self.old.watches.pairs.items number }
        requires below { ClausesAreBelow (length self.old.placed.trail.slots.items) clauses.now }
        ensures { IfOk result (TakenIs clauses.now self.old self.new) }
    {
        self.undo(base)?;
        self.levels.truncate(0);
        self.stock.add(number)?;
        let Some(lits) = named(clauses, self.entries.as_slice(), number) else {
            unreachable!()
        };
        match standing_of(self.placed.trail.slots.as_slice(), lits) {
            Standing::AllFalse => {
                self.watches.rest(number, NO_LITERAL, false);
                Ok(Learning::Conflict(number))
            }
            Standing::Single(lit) => {
                self.watches.rest(number, lit, false);
                self.placed.assign(lit.opposite(), Some(number))?;
                Ok(Learning::Asserted)
            }
            Standing::True(lit) => {
                self.watches.rest(number, lit, false);
                Ok(Learning::Cleared)
            }
            Standing::Open(first, second) => {
                let pair = Pair {
                    first,
                    second,
                    aside: false,
                };
                self.watches.put(number, pair)?;
                Ok(Learning::Cleared)
            }
        }
    }

    /// Keeps an entry that was false before the last level began: it is set aside, and taken up at
    /// once.
    pub(crate) fn keep_early(
        &mut self,
        clauses: &[Clause],
        entry: Entry,
        base: usize,
    ) -> Result<Learning, AllocError>
        requires state { Holds clauses.now self.old }
        requires base { slice_get self.old.levels.items 0 ≡ Some base }
        requires entry_below { AreBelow (length self.old.placed.trail.slots.items) entry.clause.lits }
        requires follows { Follows (known_before clauses.now self.old.entries) entry }
        requires new { IsNew (known_before clauses.now self.old.entries) entry }
        requires below { ClausesAreBelow (length self.old.placed.trail.slots.items) clauses.now }
        ensures { IfOk result (LearnedIs clauses.now self.old self.new) }
    {
        let number = self.keep_aside(clauses, entry, base)?;
        let learning = self.take_up(clauses, number, base)?;
        Ok(learning)
    }

    // Keeps an entry as one that was set aside.
    fn keep_aside(
        &mut self,
        clauses: &[Clause],
        entry: Entry,
        base: usize,
    ) -> Result<u32, AllocError>
        requires state { Holds clauses.now self.old }
        requires base { slice_get self.old.levels.items 0 ≡ Some base }
        requires entry_below { AreBelow (length self.old.placed.trail.slots.items) entry.clause.lits }
        requires follows { Follows (known_before clauses.now self.old.entries) entry }
        requires new { IsNew (known_before clauses.now self.old.entries) entry }
        ensures { IfOk result (IsKeptAside clauses.now self.old self.new) }
    {
        let _ = base;
        let number = next_index(clauses.len(), self.entries.len())?;
        self.shelf.add(number, entry.clause.lits.as_slice())?;
        self.watches.pairs.push(Pair {
            first: NO_LITERAL,
            second: NO_LITERAL,
            aside: true,
        })?;
        self.entries.push(entry)?;
        Ok(number)
    }

    /// Sets the less useful entries aside, where too many watch.
    pub(crate) fn reduce(&mut self, alloc: Global, clauses: &[Clause]) -> Result<(), AllocError>
        requires { Holds clauses.now self.old }
        ensures { OnOk result (IsReduced clauses.now self.old self.new) }
    {
        if !self.stock.is_full() {
            return Ok(());
        }
        let chosen = self.stock.choose(
            alloc,
            &self.placed,
            clauses.len(),
            self.entries.as_slice(),
            &self.analysis.gathering.uses,
        )?;
        for number in &chosen {
            self.set_aside(clauses, *number)?;
        }
        Ok(())
    }

    // Sets the entry of that number aside, if it is one. An empty one has no place on the shelf.
    fn set_aside(&mut self, clauses: &[Clause], number: u32) -> Result<(), AllocError>
        requires { Holds clauses.now self.old }
        ensures { OnOk result (IsReduced clauses.now self.old self.new) }
    {
        let index = number as usize;
        if index < clauses.len() {
            return Ok(());
        }
        let Some(entry) = self.entries.as_slice().get(index - clauses.len()) else {
            return Ok(());
        };
        let lits = entry.clause.lits.as_slice();
        if lits.is_empty() {
            return Ok(());
        }
        self.shelf.add(number, lits)?;
        self.watches.rest(number, NO_LITERAL, true);
        Ok(())
    }
}
