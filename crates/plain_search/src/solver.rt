//! The state of a search, and its moves: a decision, and what follows a conflict.
ghost use Rattle.std.specs.Prelude.{◌≡◌, ℕ, ◌+◌, ◌-◌, ◌<◌, ◌≤◌, ◌^◌, ◌≢◌, [], length, IfOk, OnOk, true, false, IfSome, IfNone, slice_get, Some};
ghost use Rattle.std.specs.List.{All};
ghost use Rattle.sat_check.specs.Clauses.{ClausesAreBelow};
ghost use Rattle.sat_check.specs.Logs.{known_before, EntriesAreBelow, IsRefutation};
ghost use Rattle.search_base.specs.Trails.{AllStuck, Keeps, falses_of};
ghost use Rattle.plain_search.specs.Looks.{Propagates};
ghost use Rattle.search_base.specs.Propagation.{IsConflict};
ghost use Rattle.search_base.specs.Replacing.{Learns};
ghost use Rattle.plain_search.specs.Occurrences.{IsComplete};
ghost use Rattle.plain_search.specs.States.{IsState, IsAhead, Answers};
ghost use Rattle.search_base.specs.Levels.{IsStart};

use crate::occurrences::Occurrences;
use crate::propagation::{propagate, visit_clauses};
use sat_check::{Clause, Entries, Entry, Lit};
use search_base::{Learned, Trail, analyze, open_variable};
use std::alloc::{AllocError, Global};

/// The trail with the places at which its levels begin, each with a decision; in which clauses
/// the literals stand; and the entries learned so far.
#[derive(Drop)]
pub(crate) struct Solver {
    pub(crate) trail: Trail,
    pub(crate) levels: Vec<usize>,
    pub(crate) occurrences: Occurrences,
    pub(crate) entries: Entries,
    pub(crate) cursor: usize,
}

impl Solver {
    /// A search at its start, and the number of a clause that is false by propagation alone.
    pub(crate) fn start(
        alloc: Global,
        variables: u32,
        clauses: &[Clause],
    ) -> Result<(Solver, Option<u32>), AllocError>
        requires below { ClausesAreBelow variables clauses.now }
        requires few { length clauses.now < 2 ^ 32 }
        ensures state { IfOk result (λ it. IsState variables clauses.now it.0.trail.slots.items it.0.trail.steps.items it.0.levels.items it.0.occurrences.positive.items it.0.occurrences.negative.items it.0.entries) }
        ensures none { IfOk result (λ it. it.0.entries ≡ []) }
        ensures answers { IfOk result (λ it. Answers (known_before clauses.now it.0.entries) it.0.trail.steps.items it.1) }
    {
        let mut trail = Trail::new(alloc, variables)?;
        let occurrences = all_occurrences(alloc, variables, clauses)?;
        let conflict = first_conflict(&mut trail, clauses, &occurrences)?;
        let solver = Solver {
            trail,
            levels: Vec::new(alloc),
            occurrences,
            entries: Entries::new(alloc),
            cursor: 0,
        };
        Ok((solver, conflict))
    }

    /// Propagates the last step.
    pub(crate) fn propagate(&mut self, clauses: &[Clause]) -> Result<Option<u32>, AllocError>
        requires state { IsState (length self.old.trail.slots.items) clauses.now self.old.trail.slots.items self.old.trail.steps.items self.old.levels.items self.old.occurrences.positive.items self.old.occurrences.negative.items self.old.entries }
        requires ahead { IsAhead (known_before clauses.now self.old.entries) self.old.trail.steps.items }
        requires below { ClausesAreBelow (length self.old.trail.slots.items) clauses.now }
        ensures len { length self.new.trail.slots.items ≡ length self.old.trail.slots.items }
        ensures entries { self.new.entries ≡ self.old.entries }
        ensures longer { OnOk result (length self.old.trail.steps.items ≤ length self.new.trail.steps.items) }
        ensures state { OnOk result (IsState (length self.new.trail.slots.items) clauses.now self.new.trail.slots.items self.new.trail.steps.items self.new.levels.items self.new.occurrences.positive.items self.new.occurrences.negative.items self.new.entries) }
        ensures answers { IfOk result (Answers (known_before clauses.now self.new.entries) self.new.trail.steps.items) }
    {
        let head = self.trail.steps.len() - 1;
        let conflict = propagate(
            &mut self.trail,
            clauses,
            self.entries.as_slice(),
            &self.occurrences,
            head,
        )?;
        Ok(conflict)
    }

    /// Gives a value to a variable that has none, as it last had it. `false` says that all have
    /// one.
    pub(crate) fn decide(&mut self, clauses: &[Clause]) -> Result<bool, AllocError>
        requires state { IsState (length self.old.trail.slots.items) clauses.now self.old.trail.slots.items self.old.trail.steps.items self.old.levels.items self.old.occurrences.positive.items self.old.occurrences.negative.items self.old.entries }
        requires stuck { AllStuck (known_before clauses.now self.old.entries) (falses_of self.old.trail.steps.items) }
        requires few { length self.old.trail.slots.items < 2 ^ 32 }
        ensures len { length self.new.trail.slots.items ≡ length self.old.trail.slots.items }
        ensures entries { self.new.entries ≡ self.old.entries }
        ensures state { OnOk result (IsState (length self.new.trail.slots.items) clauses.now self.new.trail.slots.items self.new.trail.steps.items self.new.levels.items self.new.occurrences.positive.items self.new.occurrences.negative.items self.new.entries) }
        ensures decided { IfOk result (λ decided. decided ≡ true → IsAhead (known_before clauses.now self.new.entries) self.new.trail.steps.items × (length self.new.trail.steps.items ≡ length self.old.trail.steps.items + 1)) }
        ensures whole { IfOk result (λ decided. decided ≡ false → All (λ slot. slot.assigned ≡ true) self.new.trail.slots.items × AllStuck (known_before clauses.now self.new.entries) (falses_of self.new.trail.steps.items)) }
    {
        let Some(variable) = open_variable(self.trail.slots.as_slice(), self.cursor) else {
            return Ok(false);
        };
        self.cursor = variable;
        let falsified = Lit {
            variable: variable as u32,
            positive: self.trail.slots[variable].positive,
        };
        let place = self.trail.steps.len();
        self.trail.assign(falsified, None)?;
        self.levels.push(place)?;
        Ok(true)
    }

    /// Learns an entry from a clause that is false, and jumps back to where it follows from the
    /// values. `true` says that the entry is empty, and so the log a refutation.
    pub(crate) fn learn(
        &mut self,
        alloc: Global,
        clauses: &[Clause],
        conflict: u32,
    ) -> Result<bool, AllocError>
        requires state { IsState (length self.old.trail.slots.items) clauses.now self.old.trail.slots.items self.old.trail.steps.items self.old.levels.items self.old.occurrences.positive.items self.old.occurrences.negative.items self.old.entries }
        requires conflict { IsConflict (known_before clauses.now self.old.entries) (falses_of self.old.trail.steps.items) conflict }
        requires below { ClausesAreBelow (length self.old.trail.slots.items) clauses.now }
        ensures len { length self.new.trail.slots.items ≡ length self.old.trail.slots.items }
        ensures more { OnOk result (length self.new.entries ≡ length self.old.entries + 1) }
        ensures refuted { IfOk result (λ refuted. refuted ≡ true → IsRefutation clauses.now self.new.entries × EntriesAreBelow (length self.new.trail.slots.items) self.new.entries) }
        ensures learned { IfOk result (λ refuted. refuted ≡ false → (IsState (length self.new.trail.slots.items) clauses.now self.new.trail.slots.items self.new.trail.steps.items self.new.levels.items self.new.occurrences.positive.items self.new.occurrences.negative.items self.new.entries) × IsAhead (known_before clauses.now self.new.entries) self.new.trail.steps.items) }
    {
        let start = start_of(self.levels.as_slice());
        let first = first_of(self.levels.as_slice());
        let Learned { entry, keep } = analyze(
            alloc,
            &self.trail,
            clauses,
            self.entries.as_slice(),
            conflict,
            start,
            first,
        )?;
        if entry.clause.lits.is_empty() {
            self.entries.push(entry)?;
            return Ok(true);
        }
        self.jump(clauses, entry, start, keep)?;
        Ok(false)
    }

    // Jumps back to the first level that begins at `keep` or later, where the entry has one
    // literal left, and makes that true.
    fn jump(
        &mut self,
        clauses: &[Clause],
        entry: Entry,
        start: usize,
        keep: usize,
    ) -> Result<(), AllocError>
        requires state { IsState (length self.old.trail.slots.items) clauses.now self.old.trail.slots.items self.old.trail.steps.items self.old.levels.items self.old.occurrences.positive.items self.old.occurrences.negative.items self.old.entries }
        requires start { IsStart self.old.levels.items start }
        requires learns { Learns (known_before clauses.now self.old.entries) self.old.trail.steps.items start entry.clause.lits entry.hints keep }
        requires some { entry.clause.lits ≢ [] }
        ensures len { length self.new.trail.slots.items ≡ length self.old.trail.slots.items }
        ensures more { OnOk result (length self.new.entries ≡ length self.old.entries + 1) }
        ensures state { OnOk result (IsState (length self.new.trail.slots.items) clauses.now self.new.trail.slots.items self.new.trail.steps.items self.new.levels.items self.new.occurrences.positive.items self.new.occurrences.negative.items self.new.entries) }
        ensures ahead { OnOk result (IsAhead (known_before clauses.now self.new.entries) self.new.trail.steps.items) }
    {
        let decision = self.trail.steps[start];
        let Some((level, place)) = level_from(self.levels.as_slice(), keep) else {
            unreachable!()
        };
        self.trail.cut(place);
        self.levels.truncate(level);
        self.cursor = 0;
        let index = next_index(clauses.len(), self.entries.len())?;
        self.occurrences.add(index, entry.clause.lits.as_slice())?;
        self.entries.push(entry)?;
        self.trail
            .assign(decision.falsified.opposite(), Some(index))?;
        Ok(())
    }
}

// Looks at each clause, and propagates what follows.
fn first_conflict(
    trail: &mut Trail,
    clauses: &[Clause],
    occurrences: &Occurrences,
) -> Result<Option<u32>, AllocError>
    requires keeps { Keeps (known_before clauses.now []) trail.old.slots.items trail.old.steps.items }
    requires complete { IsComplete (known_before clauses.now []) occurrences.now.positive.items occurrences.now.negative.items }
    requires positive { length occurrences.now.positive.items ≡ length trail.old.slots.items }
    requires negative { length occurrences.now.negative.items ≡ length trail.old.slots.items }
    requires below { ClausesAreBelow (length trail.old.slots.items) clauses.now }
    requires few { length clauses.now < 2 ^ 32 }
    ensures len { length trail.new.slots.items ≡ length trail.old.slots.items }
    ensures propagates { IfOk result (Propagates (known_before clauses.now []) trail.old.steps.items trail.new.slots.items trail.new.steps.items) }
{
    let begun = visit_clauses(trail, clauses)?;
    if begun.is_some() {
        return Ok(begun);
    }
    let conflict = propagate(trail, clauses, &[], occurrences, 0)?;
    Ok(conflict)
}

// The first level that begins at `keep` or later, and where it does.
fn level_from(levels: &[usize], keep: usize) -> Option<(usize, usize)>
    ensures found { IfSome result (λ it. (slice_get levels.now it.0 ≡ Some it.1) × (keep ≤ it.1)) }
    ensures first { IfSome result (λ it. (i place : ℕ) → i < it.0 → slice_get levels.now i ≡ Some place → place < keep) }
    ensures none { IfNone result ((i place : ℕ) → slice_get levels.now i ≡ Some place → place < keep) }
{
    for (level, place) in levels.iter().enumerate() {
        if *place >= keep {
            return Some((level, *place));
        }
    }
    None
}

// Where the last level begins.
fn start_of(levels: &[usize]) -> usize
    ensures { IsStart levels.now result }
{
    match levels.last() {
        Some(place) => *place,
        None => 0,
    }
}

// Where the first level begins. What is false before it needs no decision.
fn first_of(levels: &[usize]) -> usize {
    match levels.first() {
        Some(place) => *place,
        None => 0,
    }
}

// The number of the next entry as a hint. One that no hint can name is answered as want of memory.
fn next_index(clauses: usize, entries: usize) -> Result<u32, AllocError>
    ensures { IfOk result (λ index. index ≡ clauses + entries) }
{
    let Some(index) = clauses.checked_add(entries) else {
        return Err(AllocError);
    };
    match u32::try_from(index) {
        Ok(index) => Ok(index),
        Err(_) => Err(AllocError),
    }
}

// The clauses in which each literal stands.
fn all_occurrences(
    alloc: Global,
    variables: u32,
    clauses: &[Clause],
) -> Result<Occurrences, AllocError>
    requires below { ClausesAreBelow variables clauses.now }
    requires few { length clauses.now < 2 ^ 32 }
    ensures positive { IfOk result (λ all. length all.positive.items ≡ variables) }
    ensures negative { IfOk result (λ all. length all.negative.items ≡ variables) }
    ensures complete { IfOk result (λ all. IsComplete (known_before clauses.now []) all.positive.items all.negative.items) }
{
    let mut occurrences = Occurrences::new(alloc, variables)?;
    for (index, clause) in clauses.iter().enumerate() {
        occurrences.add(index as u32, clause.lits.as_slice())?;
    }
    Ok(occurrences)
}
