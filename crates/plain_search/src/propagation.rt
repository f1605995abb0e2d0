//! Propagation: what follows from the values by the clauses, one literal after another.
ghost use Rattle.std.specs.Prelude.{◌≡◌, ◌<◌, ◌≤◌, ◌^◌, [], length, IfOk};
ghost use Rattle.sat_check.specs.Clauses.{ClausesAreBelow};
ghost use Rattle.sat_check.specs.Logs.{EntriesAreBelow, known_before};
ghost use Rattle.search_base.specs.Trails.{Keeps};
ghost use Rattle.plain_search.specs.Occurrences.{IsComplete};
ghost use Rattle.plain_search.specs.Looks.{AllSettled, Visits, VisitsAll, Propagates, Begins};

use crate::occurrences::Occurrences;
use sat_check::{Clause, Entry, named};
use search_base::{Reading, Trail, read};
use std::alloc::AllocError;

// Looks at the clause of that number: one literal left becomes true, none left is a conflict.
fn visit(
    trail: &mut Trail,
    clauses: &[Clause],
    entries: &[Entry],
    index: u32,
) -> Result<bool, AllocError>
    requires keeps { Keeps (known_before clauses.now entries.now) trail.old.slots.items trail.old.steps.items }
    requires clauses_below { ClausesAreBelow (length trail.old.slots.items) clauses.now }
    requires entries_below { EntriesAreBelow (length trail.old.slots.items) entries.now }
    ensures len { length trail.new.slots.items ≡ length trail.old.slots.items }
    ensures visits { IfOk result (Visits (known_before clauses.now entries.now) trail.old.steps.items trail.new.slots.items trail.new.steps.items index) }
{
    let Some(lits) = named(clauses, entries, index) else {
        return Ok(false);
    };
    match read(trail.slots.as_slice(), lits) {
        Reading::AllFalse => Ok(true),
        Reading::Single(lit) => {
            trail.assign(lit.opposite(), Some(index))?;
            Ok(false)
        }
        Reading::Neither => Ok(false),
    }
}

// Looks at each of these clauses, up to the first conflict.
fn visit_all(
    trail: &mut Trail,
    clauses: &[Clause],
    entries: &[Entry],
    indices: &[u32],
) -> Result<Option<u32>, AllocError>
    requires keeps { Keeps (known_before clauses.now entries.now) trail.old.slots.items trail.old.steps.items }
    requires clauses_below { ClausesAreBelow (length trail.old.slots.items) clauses.now }
    requires entries_below { EntriesAreBelow (length trail.old.slots.items) entries.now }
    ensures len { length trail.new.slots.items ≡ length trail.old.slots.items }
    ensures visits { IfOk result (VisitsAll (known_before clauses.now entries.now) trail.old.steps.items trail.new.slots.items trail.new.steps.items indices.now) }
{
    for index in indices {
        if visit(trail, clauses, entries, *index)? {
            return Ok(Some(*index));
        }
    }
    Ok(None)
}

/// Looks at each clause once, and gives the number of one that is false.
pub(crate) fn visit_clauses(
    trail: &mut Trail,
    clauses: &[Clause],
) -> Result<Option<u32>, AllocError>
    requires keeps { Keeps (known_before clauses.now []) trail.old.slots.items trail.old.steps.items }
    requires clauses_below { ClausesAreBelow (length trail.old.slots.items) clauses.now }
    requires few { length clauses.now < 2 ^ 32 }
    ensures len { length trail.new.slots.items ≡ length trail.old.slots.items }
    ensures begins { IfOk result (Begins (known_before clauses.now []) trail.old.steps.items trail.new.slots.items trail.new.steps.items) }
{
    for index in 0..clauses.len() {
        if visit(trail, clauses, &[], index as u32)? {
            return Ok(Some(index as u32));
        }
    }
    Ok(None)
}

/// Propagates the steps from `head` on, and those that come of them, and gives the number of a
/// clause that is false.
pub(crate) fn propagate(
    trail: &mut Trail,
    clauses: &[Clause],
    entries: &[Entry],
    occurrences: &Occurrences,
    mut head: usize,
) -> Result<Option<u32>, AllocError>
    requires keeps { Keeps (known_before clauses.now entries.now) trail.old.slots.items trail.old.steps.items }
    requires settled { AllSettled (known_before clauses.now entries.now) trail.old.steps.items head }
    requires within { head ≤ length trail.old.steps.items }
    requires complete { IsComplete (known_before clauses.now entries.now) occurrences.now.positive.items occurrences.now.negative.items }
    requires positive { length occurrences.now.positive.items ≡ length trail.old.slots.items }
    requires negative { length occurrences.now.negative.items ≡ length trail.old.slots.items }
    requires clauses_below { ClausesAreBelow (length trail.old.slots.items) clauses.now }
    requires entries_below { EntriesAreBelow (length trail.old.slots.items) entries.now }
    ensures len { length trail.new.slots.items ≡ length trail.old.slots.items }
    ensures propagates { IfOk result (Propagates (known_before clauses.now entries.now) trail.old.steps.items trail.new.slots.items trail.new.steps.items) }
{
    while head < trail.steps.len() {
        let falsified = trail.steps[head].falsified;
        let indices = occurrences.of(falsified);
        if let Some(conflict) = visit_all(trail, clauses, entries, indices)? {
            return Ok(Some(conflict));
        }
        head += 1;
    }
    Ok(None)
}
