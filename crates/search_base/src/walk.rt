//! A walk by hints, from the literals of a clause as false to a clause that is false.
ghost use Rattle.std.specs.Prelude.{◌≡◌, ℕ, true, false, length, IfOk, OnOk, IfSome, List, Some, slice_get};
ghost use Rattle.sat_check.specs.Clauses.{ClausesAreBelow};
ghost use Rattle.sat_check.specs.Logs.{EntriesAreBelow, Refutes, known_before};
ghost use Rattle.search_base.specs.Trails.{Keeps, falses_of};
ghost use Rattle.search_base.specs.Walks.{FollowIs, LeadsFrom};
ghost use Rattle.sat_check.specs.declared.clause.Clause.{Clause as OneClause};
ghost use Rattle.sat_check.specs.declared.clause.Lit.{Lit as OneLit};
ghost use Rattle.search_base.specs.declared.trail.Slot.{Slot as OneSlot};

use crate::trail::{Reading, Trail, read};
use sat_check::{Clause, Entry, Lit, named};
use std::alloc::{AllocError, Global};

/// What a hint comes to.
#[derive(Clone, Copy)]
pub(crate) enum Follow {
    /// All literals of its clause are false.
    Ends,
    /// One had no value, and the others are false: it became true.
    Leads,
    /// Neither.
    Skips,
}

impl Trail {
    // Whether there is such a variable, and it has no value.
    fn is_open(&self, variable: u32) -> bool
        ensures { result ≡ true → (slot : OneSlot) × (slice_get self.now.slots.items variable ≡ Some slot) × (slot.assigned ≡ false) }
    {
        if let Some(slot) = self.slots.get(variable as usize) {
            if !slot.assigned {
                return true;
            }
        }
        false
    }

    // Takes these literals as false, and no others. `true` says that each had no value before.
    fn take_all(&mut self, lits: &[Lit]) -> Result<bool, AllocError>
        requires { (known : List OneClause) × Keeps known self.old.slots.items self.old.steps.items }
        ensures len { OnOk result (length self.new.slots.items ≡ length self.old.slots.items) }
        ensures keeps { OnOk result ((known : List OneClause) → Keeps known self.new.slots.items self.new.steps.items) }
        ensures falses { IfOk result (λ all. all ≡ true → falses_of self.new.steps.items ≡ lits.now) }
    {
        self.cut(0);
        for lit in lits {
            if !self.is_open(lit.variable) {
                return Ok(false);
            }
            self.assign(*lit, None)?;
        }
        Ok(true)
    }

    // Follows one hint.
    fn follow(
        &mut self,
        clauses: &[Clause],
        entries: &[Entry],
        hint: u32,
    ) -> Result<Follow, AllocError>
        requires keeps { Keeps (known_before clauses.now entries.now) self.old.slots.items self.old.steps.items }
        requires clauses_below { ClausesAreBelow (length self.old.slots.items) clauses.now }
        requires entries_below { EntriesAreBelow (length self.old.slots.items) entries.now }
        ensures len { OnOk result (length self.new.slots.items ≡ length self.old.slots.items) }
        ensures keeps { OnOk result (Keeps (known_before clauses.now entries.now) self.new.slots.items self.new.steps.items) }
        ensures follow { IfOk result (FollowIs (known_before clauses.now entries.now) (falses_of self.old.steps.items) (falses_of self.new.steps.items) hint) }
    {
        let Some(lits) = named(clauses, entries, hint) else {
            return Ok(Follow::Skips);
        };
        match read(self.slots.as_slice(), lits) {
            Reading::AllFalse => Ok(Follow::Ends),
            Reading::Single(lit) => {
                self.assign(lit.opposite(), Some(hint))?;
                Ok(Follow::Leads)
            }
            Reading::Neither => Ok(Follow::Skips),
        }
    }

    // Follows one hint, and takes it where it ends the walk or leads on. `true` says that it ends.
    fn follow_into(
        &mut self,
        clauses: &[Clause],
        entries: &[Entry],
        hint: u32,
        taken: &mut Vec<u32>,
    ) -> Result<bool, AllocError>
        requires keeps { Keeps (known_before clauses.now entries.now) self.old.slots.items self.old.steps.items }
        requires clauses_below { ClausesAreBelow (length self.old.slots.items) clauses.now }
        requires entries_below { EntriesAreBelow (length self.old.slots.items) entries.now }
        ensures len { OnOk result (length self.new.slots.items ≡ length self.old.slots.items) }
        ensures keeps { OnOk result (Keeps (known_before clauses.now entries.now) self.new.slots.items self.new.steps.items) }
        ensures ends { IfOk result (λ ends. ends ≡ true → (start : List OneLit) → LeadsFrom (known_before clauses.now entries.now) start (falses_of self.old.steps.items) taken.old.items → Refutes (known_before clauses.now entries.now) start taken.new.items) }
        ensures leads { IfOk result (λ ends. ends ≡ false → (start : List OneLit) → LeadsFrom (known_before clauses.now entries.now) start (falses_of self.old.steps.items) taken.old.items → LeadsFrom (known_before clauses.now entries.now) start (falses_of self.new.steps.items) taken.new.items) }
    {
        match self.follow(clauses, entries, hint)? {
            Follow::Ends => {
                taken.push(hint)?;
                Ok(true)
            }
            Follow::Leads => {
                taken.push(hint)?;
                Ok(false)
            }
            Follow::Skips => Ok(false),
        }
    }

    // Those of the hints that lead from what is false to a clause that is false, if they do.
    fn follow_all(
        &mut self,
        alloc: Global,
        clauses: &[Clause],
        entries: &[Entry],
        hints: &[u32],
    ) -> Result<Option<Vec<u32>>, AllocError>
        requires keeps { Keeps (known_before clauses.now entries.now) self.old.slots.items self.old.steps.items }
        requires clauses_below { ClausesAreBelow (length self.old.slots.items) clauses.now }
        requires entries_below { EntriesAreBelow (length self.old.slots.items) entries.now }
        ensures len { OnOk result (length self.new.slots.items ≡ length self.old.slots.items) }
        ensures keeps { OnOk result (Keeps (known_before clauses.now entries.now) self.new.slots.items self.new.steps.items) }
        ensures refutes { IfOk result (λ found. IfSome found (λ taken. Refutes (known_before clauses.now entries.now) (falses_of self.old.steps.items) taken.items)) }
    {
        let mut taken = Vec::with_capacity(alloc, hints.len())?;
        for hint in hints {
            if self.follow_into(clauses, entries, *hint, &mut taken)? {
                return Ok(Some(taken));
            }
        }
        Ok(None)
    }

    /// Those of the hints by which a clause of these literals follows, if it does.
    pub fn walk(
        &mut self,
        alloc: Global,
        clauses: &[Clause],
        entries: &[Entry],
        lits: &[Lit],
        hints: &[u32],
    ) -> Result<Option<Vec<u32>>, AllocError>
        requires keeps { (known : List OneClause) × Keeps known self.old.slots.items self.old.steps.items }
        requires clauses_below { ClausesAreBelow (length self.old.slots.items) clauses.now }
        requires entries_below { EntriesAreBelow (length self.old.slots.items) entries.now }
        ensures len { OnOk result (length self.new.slots.items ≡ length self.old.slots.items) }
        ensures keeps { OnOk result (Keeps (known_before clauses.now entries.now) self.new.slots.items self.new.steps.items) }
        ensures refutes { IfOk result (λ found. IfSome found (λ taken. Refutes (known_before clauses.now entries.now) lits.now taken.items)) }
    {
        if !self.take_all(lits)? {
            return Ok(None);
        }
        let taken = self.follow_all(alloc, clauses, entries, hints)?;
        Ok(taken)
    }
}
