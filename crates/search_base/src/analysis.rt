//! What a conflict teaches: one clause, with the hints by which it follows.
ghost use Rattle.std.specs.Prelude.{◌≡◌, ℕ, ◌+◌, ◌<◌, ◌≤◌, ◌⊎◌, length, IfOk, OnOk, IfSome, IfNone, Some, None, true, slice_get, List};
ghost use Rattle.sat_check.specs.Clauses.{AreBelow, ClausesAreBelow};
ghost use Rattle.sat_check.specs.Logs.{EntriesAreBelow, known_before};
ghost use Rattle.search_base.specs.Trails.{Keeps, falses_of};
ghost use Rattle.search_base.specs.Propagation.{IsConflict};
ghost use Rattle.search_base.specs.Replacing.{Walked, Learns};
ghost use Rattle.search_base.specs.Analysis.{AllMarked, IsLastLevel};
ghost use Rattle.sat_check.specs.declared.clause.Clause.{Clause as OneClause};

use crate::trail::{Step, Trail};
use sat_check::{Clause, Entry, Hints, Lit, Lits, named};
use std::alloc::{AllocError, Global};

/// A clause that follows, and how much of the trail before the last level it speaks of.
#[derive(Drop)]
pub struct Learned {
    pub entry: Entry,
    pub keep: usize,
}

// The trail is gone over from its end. A marked literal is one that the clause would need: it is
// replaced by the others of its reason, or it stays in the clause.
#[derive(Drop)]
struct Analysis {
    marks: Vec<bool>,
    lits: Lits,
    hints: Vec<u32>,
    keep: usize,
}

impl Analysis {
    fn begin(
        alloc: Global,
        trail: &Trail,
        clauses: &[Clause],
        entries: &[Entry],
        conflict: u32,
    ) -> Result<Analysis, AllocError>
        requires clauses_below { ClausesAreBelow (length trail.now.slots.items) clauses.now }
        requires entries_below { EntriesAreBelow (length trail.now.slots.items) entries.now }
        requires conflict { IsConflict (known_before clauses.now entries.now) (falses_of trail.now.steps.items) conflict }
        ensures len { IfOk result (λ a. length a.marks.items ≡ length trail.now.slots.items) }
        ensures walked { IfOk result (λ a. (start : ℕ) → Walked (known_before clauses.now entries.now) trail.now.steps.items start (length trail.now.steps.items) a.marks.items a.lits a.hints.items a.keep) }
    {
        let mut marks = vec![in alloc; false; trail.slots.len()]?;
        mark(&mut marks, clauses, entries, conflict);
        let mut hints = Vec::new(alloc);
        hints.push(conflict)?;
        Ok(Analysis {
            marks,
            lits: Lits::new(alloc),
            hints,
            keep: 0,
        })
    }

    // Goes over the step at `at`.
    fn step_back(
        &mut self,
        trail: &Trail,
        clauses: &[Clause],
        entries: &[Entry],
        at: usize,
        start: usize,
        first: usize,
    ) -> Result<(), AllocError>
        requires within { at < length trail.now.steps.items }
        requires keeps { Keeps (known_before clauses.now entries.now) trail.now.slots.items trail.now.steps.items }
        requires last_level { IsLastLevel trail.now.steps.items start }
        requires len { length self.old.marks.items ≡ length trail.now.slots.items }
        requires clauses_below { ClausesAreBelow (length trail.now.slots.items) clauses.now }
        requires entries_below { EntriesAreBelow (length trail.now.slots.items) entries.now }
        requires walked { Walked (known_before clauses.now entries.now) trail.now.steps.items start (at + 1) self.old.marks.items self.old.lits self.old.hints.items self.old.keep }
        ensures len { length self.new.marks.items ≡ length self.old.marks.items }
        ensures walked { OnOk result (Walked (known_before clauses.now entries.now) trail.now.steps.items start at self.new.marks.items self.new.lits self.new.hints.items self.new.keep) }
    {
        let step = trail.steps[at];
        let variable = step.falsified.variable as usize;
        if !self.marks[variable] {
            return Ok(());
        }
        match replaced_by(step, at, start, first) {
            Some(index) => {
                mark(&mut self.marks, clauses, entries, index);
                self.hints.push(index)?;
            }
            None => {
                self.keep = kept_from(self.keep, at, start);
                self.lits.push(step.falsified)?;
            }
        }
        self.marks[variable] = false;
        Ok(())
    }
}

// The clause that replaces a step's literal: its reason, on the last level, which begins at
// `start`, and before any decision, up to `first`.
fn replaced_by(step: Step, at: usize, start: usize, first: usize) -> Option<u32>
    ensures reason { IfSome result (λ index. step.reason ≡ Some index) }
    ensures stays { IfNone result ((at < start) ⊎ (step.reason ≡ None)) }
{
    if first <= at && at < start {
        None
    } else {
        step.reason
    }
}

// The first place that stays is the last before the level.
fn kept_from(keep: usize, at: usize, start: usize) -> usize
    requires { at < 18446744073709551615 }
    ensures first { at < start → keep ≡ 0 → result ≡ at + 1 }
    ensures later { 0 < keep → result ≡ keep }
    ensures none { start ≤ at → result ≡ keep }
{
    if at < start && keep == 0 {
        at + 1
    } else {
        keep
    }
}

// Marks the variables of a clause.
fn mark(marks: &mut Vec<bool>, clauses: &[Clause], entries: &[Entry], index: u32)
    requires clauses_below { ClausesAreBelow (length marks.old.items) clauses.now }
    requires entries_below { EntriesAreBelow (length marks.old.items) entries.now }
    ensures len { length marks.new.items ≡ length marks.old.items }
    ensures kept { (variable : ℕ) → slice_get marks.old.items variable ≡ Some true → slice_get marks.new.items variable ≡ Some true }
    ensures marked { (clause : OneClause) → slice_get (known_before clauses.now entries.now) index ≡ Some clause → AllMarked marks.new.items clause.lits }
{
    if let Some(lits) = named(clauses, entries, index) {
        mark_lits(marks, lits);
    }
}

fn mark_lits(marks: &mut Vec<bool>, lits: &[Lit])
    requires { AreBelow (length marks.old.items) lits.now }
    ensures len { length marks.new.items ≡ length marks.old.items }
    ensures kept { (variable : ℕ) → slice_get marks.old.items variable ≡ Some true → slice_get marks.new.items variable ≡ Some true }
    ensures marked { AllMarked marks.new.items lits.now }
{
    for lit in lits {
        marks[lit.variable as usize] = true;
    }
}

/// Learns from a clause that is false. The last level begins at `start`, and `first` is where the
/// first does.
pub fn analyze(
    alloc: Global,
    trail: &Trail,
    clauses: &[Clause],
    entries: &[Entry],
    conflict: u32,
    start: usize,
    first: usize,
) -> Result<Learned, AllocError>
    requires keeps { Keeps (known_before clauses.now entries.now) trail.now.slots.items trail.now.steps.items }
    requires last_level { IsLastLevel trail.now.steps.items start }
    requires conflict { IsConflict (known_before clauses.now entries.now) (falses_of trail.now.steps.items) conflict }
    requires clauses_below { ClausesAreBelow (length trail.now.slots.items) clauses.now }
    requires entries_below { EntriesAreBelow (length trail.now.slots.items) entries.now }
    ensures { IfOk result (λ learned. Learns (known_before clauses.now entries.now) trail.now.steps.items start learned.entry.clause.lits learned.entry.hints learned.keep) }
{
    let mut analysis = Analysis::begin(alloc, trail, clauses, entries, conflict)?;
    let mut at = trail.steps.len();
    while at > 0 {
        at -= 1;
        analysis.step_back(trail, clauses, entries, at, start, first)?;
    }
    analysis.hints.reverse();
    let clause = Clause {
        lits: analysis.lits,
    };
    let hints = Hints::from_vec(analysis.hints);
    Ok(Learned {
        entry: Entry { clause, hints },
        keep: analysis.keep,
    })
}
