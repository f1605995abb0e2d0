//! A search from its start to its end, turn by turn.
ghost use Rattle.std.specs.Prelude.{◌≡◌, ℕ, ◌<◌, ◌≤◌, ◌^◌, length, IfOk, OnOk};
ghost use Rattle.sat_check.specs.Clauses.{ClausesAreBelow};
ghost use Rattle.sat_check.specs.Logs.{known_before};
ghost use Rattle.search_base.specs.Trails.{falses_of};
ghost use Rattle.search_state.specs.Watches.{AllGuarded};
ghost use Rattle.search_base.specs.Propagation.{IsConflict};
ghost use Rattle.search_state.specs.States.{Answers};
ghost use Rattle.sat_search.specs.Turns.{Holds, EndingIs, TurnIs, left_of};

use crate::solver::{Learning, Solver};
use sat_check::Clause;
use std::alloc::{AllocError, Global};

/// How a search ends.
#[derive(Clone, Copy)]
pub(crate) enum Ending {
    Satisfied,
    Refuted,
    Spent,
}

/// What a turn comes to: the end, or the number of a clause that is false, if there is one.
#[derive(Clone, Copy)]
pub(crate) enum Turn {
    Ends(Ending),
    Goes(Option<u32>),
}

impl Solver {
    // The turn after a conflict: it learns an entry, if one is left.
    fn learn_turn(
        &mut self,
        alloc: Global,
        clauses: &[Clause],
        conflicts: u64,
        index: u32,
    ) -> Result<Turn, AllocError>
        requires state { Holds clauses.now self.old }
        requires conflict { IsConflict (known_before clauses.now self.old.entries) (falses_of self.old.placed.trail.steps.items) index }
        requires below { ClausesAreBelow (length self.old.placed.trail.slots.items) clauses.now }
        requires within { length self.old.entries ≤ conflicts }
        ensures len { OnOk result (length self.new.placed.trail.slots.items ≡ length self.old.placed.trail.slots.items) }
        ensures turn { IfOk result (TurnIs clauses.now conflicts (left_of clauses.now conflicts self.old) self.new) }
    {
        if self.entries.len() as u64 >= conflicts {
            return Ok(Turn::Ends(Ending::Spent));
        }
        match self.learn(alloc, clauses, index)? {
            Learning::Refuted => Ok(Turn::Ends(Ending::Refuted)),
            Learning::Cleared => Ok(Turn::Goes(None)),
            Learning::Conflict(index) => Ok(Turn::Goes(Some(index))),
            Learning::Asserted => {
                let next = self.propagate(clauses)?;
                Ok(Turn::Goes(next))
            }
        }
    }

    // The turn where no clause is false: it decides, if a variable is left.
    fn decide_turn(&mut self, clauses: &[Clause], conflicts: u64) -> Result<Turn, AllocError>
        requires state { Holds clauses.now self.old }
        requires guarded { AllGuarded (known_before clauses.now self.old.entries) self.old.watches.pairs.items (falses_of self.old.placed.trail.steps.items) (falses_of self.old.placed.trail.steps.items) }
        requires below { ClausesAreBelow (length self.old.placed.trail.slots.items) clauses.now }
        requires few { length self.old.placed.trail.slots.items < 2 ^ 32 }
        requires within { length self.old.entries ≤ conflicts }
        ensures len { OnOk result (length self.new.placed.trail.slots.items ≡ length self.old.placed.trail.slots.items) }
        ensures turn { IfOk result (TurnIs clauses.now conflicts (left_of clauses.now conflicts self.old) self.new) }
    {
        if !self.decide(clauses)? {
            return Ok(Turn::Ends(Ending::Satisfied));
        }
        let next = self.propagate(clauses)?;
        Ok(Turn::Goes(next))
    }

    fn turn(
        &mut self,
        alloc: Global,
        clauses: &[Clause],
        conflicts: u64,
        conflict: Option<u32>,
    ) -> Result<Turn, AllocError>
        requires state { Holds clauses.now self.old }
        requires answers { Answers (known_before clauses.now self.old.entries) self.old.placed.trail.steps.items self.old.watches conflict }
        requires below { ClausesAreBelow (length self.old.placed.trail.slots.items) clauses.now }
        requires few { length self.old.placed.trail.slots.items < 2 ^ 32 }
        requires within { length self.old.entries ≤ conflicts }
        ensures len { OnOk result (length self.new.placed.trail.slots.items ≡ length self.old.placed.trail.slots.items) }
        ensures turn { IfOk result (TurnIs clauses.now conflicts (left_of clauses.now conflicts self.old) self.new) }
    {
        match conflict {
            Some(index) => {
                let turn = self.learn_turn(alloc, clauses, conflicts, index)?;
                Ok(turn)
            }
            None => {
                let turn = self.decide_turn(clauses, conflicts)?;
                Ok(turn)
            }
        }
    }

    /// Takes turn after turn to the end.
    pub(crate) fn run(
        &mut self,
        alloc: Global,
        clauses: &[Clause],
        conflicts: u64,
        mut conflict: Option<u32>,
    ) -> Result<Ending, AllocError>
        requires state { Holds clauses.now self.old }
        requires answers { Answers (known_before clauses.now self.old.entries) self.old.placed.trail.steps.items self.old.watches conflict }
        requires below { ClausesAreBelow (length self.old.placed.trail.slots.items) clauses.now }
        requires few { length self.old.placed.trail.slots.items < 2 ^ 32 }
        requires within { length self.old.entries ≤ conflicts }
        ensures len { OnOk result (length self.new.placed.trail.slots.items ≡ length self.old.placed.trail.slots.items) }
        ensures ending { IfOk result (EndingIs clauses.now conflicts self.new) }
    {
        loop {
            match self.turn(alloc, clauses, conflicts, conflict)? {
                Turn::Ends(ending) => return Ok(ending),
                Turn::Goes(next) => conflict = next,
            }
        }
    }
}
