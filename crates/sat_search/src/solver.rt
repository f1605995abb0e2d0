//! The state of a search, and its moves: a decision, and what follows a conflict.
ghost use Rattle.std.specs.Prelude.{◌≡◌, ◌+◌, ◌-◌, ◌<◌, ◌≤◌, ◌^◌, ◌≢◌, ◌⊎◌, ℕ, [], length, take, IfOk, OnOk, true, false, IfSome, IfNone, IsSome, slice_get, Some, None, List};
ghost use Rattle.std.specs.List.{All};
ghost use Rattle.sat_check.specs.Clauses.{ClausesAreBelow};
ghost use Rattle.sat_check.specs.Logs.{known_before, IsNew};
ghost use Rattle.search_base.specs.Trails.{falses_of};
ghost use Rattle.search_base.specs.Propagation.{IsConflict};
ghost use Rattle.search_state.specs.Watches.{IsTrail, AllGuarded, flags_of};
ghost use Rattle.sat_search.specs.Learning.{Learns};
ghost use Rattle.search_base.specs.Levels.{IsStart};
ghost use Rattle.search_state.specs.States.{IsState, IsAhead, Answers};
ghost use Rattle.sat_search.specs.Turns.{Holds, LearnedIs, IsKept};
ghost use Rattle.search_base.specs.declared.trail.Slot.{Slot as OneSlot};
ghost use Rattle.search_base.specs.declared.trail.Step.{Step as OneStep};
ghost use Rattle.sat_check.specs.declared.clause.Clause.{Clause as OneClause};

use crate::analysis::{Analysis, Learned};
use crate::gathering::Levels;
use crate::order::Order;
use crate::restarts::Restarts;
use crate::stock::Stock;
use sat_check::{Clause, Entries, Entry, Lit};
use search_base::open_variable;
use search_state::{Pair, PlacedTrail, Shelf, Watches};
use std::alloc::{AllocError, Global};

/// The trail with the places at which its levels begin, each with a decision; which clauses watch
/// which literals; the entries learned so far, and a shelf of those that were set aside; and what
/// chooses the decisions, the restarts, and the entries to be set aside.
#[derive(Drop)]
pub(crate) struct Solver {
    pub(crate) placed: PlacedTrail,
    pub(crate) levels: Vec<usize>,
    pub(crate) watches: Watches,
    pub(crate) entries: Entries,
    pub(crate) shelf: Shelf,
    pub(crate) analysis: Analysis,
    pub(crate) order: Order,
    pub(crate) restarts: Restarts,
    pub(crate) stock: Stock,
}

/// What learning from a conflict comes to.
#[derive(Clone, Copy)]
pub(crate) enum Learning {
    /// The entry is empty, and so the log a refutation.
    Refuted,
    /// The entry's asserting literal was made true, and is to be propagated.
    Asserted,
    /// All decisions were taken back, and nothing is to be propagated.
    Cleared,
    /// All decisions were taken back, and the clause of that number is false.
    Conflict(u32),
}

impl Solver {
    /// A search at its start, and the number of a clause that is false by propagation alone.
    pub(crate) fn start(
        alloc: Global,
        variables: u32,
        clauses: &[Clause],
    ) -> Result<(Solver, Option<u32>), AllocError>
        requires below { ClausesAreBelow variables clauses.now }
        requires few { length clauses.now < 2 ^ 32 }
        ensures len { IfOk result (λ it. length it.0.placed.trail.slots.items ≡ variables) }
        ensures state { IfOk result (λ it. Holds clauses.now it.0) }
        ensures none { IfOk result (λ it. it.0.entries ≡ []) }
        ensures answers { IfOk result (λ it. Answers (known_before clauses.now it.0.entries) it.0.placed.trail.steps.items it.0.watches it.1) }
    {
        let mut placed = PlacedTrail::new(alloc, variables)?;
        let mut watches = Watches::new(alloc, variables)?;
        let conflict = watches.first_conflict(&mut placed, clauses)?;
        let solver = Solver {
            placed,
            levels: Vec::new(alloc),
            watches,
            entries: Entries::new(alloc),
            shelf: Shelf::new(alloc, variables)?,
            analysis: Analysis::new(alloc, variables)?,
            order: Order::new(alloc, variables)?,
            restarts: Restarts::new(),
            stock: Stock::new(alloc, clauses.len()),
        };
        Ok((solver, conflict))
    }

    /// Propagates the last step.
    pub(crate) fn propagate(&mut self, clauses: &[Clause]) -> Result<Option<u32>, AllocError>
        requires state { Holds clauses.now self.old }
        requires ahead { IsAhead (known_before clauses.now self.old.entries) self.old.placed.trail.steps.items self.old.watches }
        requires below { ClausesAreBelow (length self.old.placed.trail.slots.items) clauses.now }
        ensures len { OnOk result (length self.new.placed.trail.slots.items ≡ length self.old.placed.trail.slots.items) }
        ensures entries { OnOk result (self.new.entries ≡ self.old.entries) }
        ensures longer { OnOk result (length self.old.placed.trail.steps.items ≤ length self.new.placed.trail.steps.items) }
        ensures flags { OnOk result (flags_of self.new.watches.pairs.items ≡ flags_of self.old.watches.pairs.items) }
        ensures state { OnOk result (Holds clauses.now self.new) }
        ensures answers { IfOk result (Answers (known_before clauses.now self.new.entries) self.new.placed.trail.steps.items self.new.watches) }
    {
        let head = self.placed.trail.steps.len() - 1;
        let conflict = self
            .watches
            .propagate(&mut self.placed, clauses, self.entries.as_slice(), head)?;
        Ok(conflict)
    }

    // The variable without a value that is to be decided next.
    fn next_variable(&mut self) -> Option<u32>
        requires few { length self.old.placed.trail.slots.items < 2 ^ 32 }
        ensures placed { self.new.placed ≡ self.old.placed }
        ensures levels { self.new.levels ≡ self.old.levels }
        ensures watches { self.new.watches ≡ self.old.watches }
        ensures entries { self.new.entries ≡ self.old.entries }
        ensures shelf { self.new.shelf ≡ self.old.shelf }
        ensures analysis { self.new.analysis ≡ self.old.analysis }
        ensures found { IfSome result (λ v. (slot : OneSlot) × (slice_get self.old.placed.trail.slots.items v ≡ Some slot) × (slot.assigned ≡ false)) }
        ensures none { IfNone result (All (λ slot. slot.assigned ≡ true) self.old.placed.trail.slots.items) }
    {
        while let Some(variable) = self.order.pop() {
            if let Some(slot) = self.placed.trail.slots.get(variable as usize) {
                if !slot.assigned {
                    self.order.count_decision();
                    return Some(variable);
                }
            }
        }
        let variable = open_variable(self.placed.trail.slots.as_slice(), 0)?;
        Some(variable as u32)
    }

    /// Gives a value to a variable that has none, as it last had it. `false` says that all have
    /// one.
    pub(crate) fn decide(&mut self, clauses: &[Clause]) -> Result<bool, AllocError>
        requires state { Holds clauses.now self.old }
        requires guarded { AllGuarded (known_before clauses.now self.old.entries) self.old.watches.pairs.items (falses_of self.old.placed.trail.steps.items) (falses_of self.old.placed.trail.steps.items) }
        requires few { length self.old.placed.trail.slots.items < 2 ^ 32 }
        ensures len { OnOk result (length self.new.placed.trail.slots.items ≡ length self.old.placed.trail.slots.items) }
        ensures entries { OnOk result (self.new.entries ≡ self.old.entries) }
        ensures flags { OnOk result (flags_of self.new.watches.pairs.items ≡ flags_of self.old.watches.pairs.items) }
        ensures state { OnOk result (Holds clauses.now self.new) }
        ensures decided { IfOk result (λ decided. decided ≡ true → IsAhead (known_before clauses.now self.new.entries) self.new.placed.trail.steps.items self.new.watches × (length self.new.placed.trail.steps.items ≡ length self.old.placed.trail.steps.items + 1)) }
        ensures whole { IfOk result (λ decided. decided ≡ false → All (λ slot. slot.assigned ≡ true) self.new.placed.trail.slots.items × (self.new.placed ≡ self.old.placed) × (self.new.watches ≡ self.old.watches)) }
    {
        let Some(variable) = self.next_variable() else {
            return Ok(false);
        };
        let falsified = Lit {
            variable,
            positive: self.placed.trail.slots[variable as usize].positive,
        };
        let place = self.placed.trail.steps.len();
        self.placed.assign(falsified, None)?;
        self.levels.push(place)?;
        Ok(true)
    }

    /// Learns an entry from a clause that is false.
    pub(crate) fn learn(
        &mut self,
        alloc: Global,
        clauses: &[Clause],
        conflict: u32,
    ) -> Result<Learning, AllocError>
        requires state { Holds clauses.now self.old }
        requires conflict { IsConflict (known_before clauses.now self.old.entries) (falses_of self.old.placed.trail.steps.items) conflict }
        requires below { ClausesAreBelow (length self.old.placed.trail.slots.items) clauses.now }
        ensures { IfOk result (LearnedIs clauses.now self.old self.new) }
    {
        let levels = levels_of(self.levels.as_slice(), self.placed.trail.steps.len());
        let learned = self.analysis.analyze(
            alloc,
            &self.placed,
            clauses,
            self.entries.as_slice(),
            conflict,
            levels,
        )?;
        self.reorder();
        let learning = self.settle(alloc, clauses, learned, levels)?;
        Ok(learning)
    }

    // Keeps what was learned, unless an entry that was set aside lies within it: that is taken up.
    fn settle(
        &mut self,
        alloc: Global,
        clauses: &[Clause],
        learned: Learned,
        levels: Levels,
    ) -> Result<Learning, AllocError>
        requires state { Holds clauses.now self.old }
        requires start { IsStart self.old.levels.items levels.start }
        requires base { ((self.old.levels.items ≡ []) × (levels.base ≡ length self.old.placed.trail.steps.items)) ⊎ (slice_get self.old.levels.items 0 ≡ Some levels.base) }
        requires leveled { IsSome learned.asserting → levels.base < length self.old.placed.trail.steps.items }
        requires learns { Learns (known_before clauses.now self.old.entries) self.old.placed.trail.steps.items levels.start learned.entry.clause.lits learned.entry.hints learned.asserting learned.keep }
        requires below { ClausesAreBelow (length self.old.placed.trail.slots.items) clauses.now }
        ensures { IfOk result (LearnedIs clauses.now self.old self.new) }
    {
        let Learned {
            entry,
            asserting,
            keep,
        } = learned;
        if entry.clause.lits.is_empty() {
            self.entries.push(entry)?;
            return Ok(Learning::Refuted);
        }
        let found = self.shelf.within(
            self.watches.pairs.as_slice(),
            clauses,
            self.entries.as_slice(),
            entry.clause.lits.as_slice(),
        );
        if let Some(number) = found {
            let learning = self.take_up(clauses, number, levels.base)?;
            return Ok(learning);
        }
        let Some(asserting) = asserting else {
            let learning = self.keep_early(clauses, entry, levels.base)?;
            return Ok(learning);
        };
        if self.restarts.is_due() && levels.base < keep {
            self.restart(clauses, entry, asserting, levels.start, levels.base, keep)?;
            self.reduce(alloc, clauses)?;
            return Ok(Learning::Cleared);
        }
        self.jump(clauses, entry, asserting, levels.start, keep)?;
        self.reduce(alloc, clauses)?;
        Ok(Learning::Asserted)
    }

    // The variables that took part in the conflict come earlier from now on. Those of the reasons
    // beyond do too, but where many decisions lead to a conflict, that gains nothing.
    fn reorder(&mut self)
        ensures placed { self.new.placed ≡ self.old.placed }
        ensures levels { self.new.levels ≡ self.old.levels }
        ensures watches { self.new.watches ≡ self.old.watches }
        ensures entries { self.new.entries ≡ self.old.entries }
        ensures shelf { self.new.shelf ≡ self.old.shelf }
        ensures analysis { self.new.analysis ≡ self.old.analysis }
    {
        for variable in &self.analysis.gathering.seen {
            self.order.bump(*variable);
        }
        if self.order.has_few_decisions() {
            for variable in &self.analysis.gathering.tried {
                self.order.bump(*variable);
            }
        }
        self.order.decay();
        self.restarts.count();
    }

    /// Takes back all steps from a place on, and lets their variables be decided again.
    pub(crate) fn undo(&mut self, place: usize) -> Result<(), AllocError>
        requires trail { (known : List OneClause) × IsTrail known self.old.placed }
        requires within { place ≤ length self.old.placed.trail.steps.items }
        ensures levels { OnOk result (self.new.levels ≡ self.old.levels) }
        ensures watches { OnOk result (self.new.watches ≡ self.old.watches) }
        ensures entries { OnOk result (self.new.entries ≡ self.old.entries) }
        ensures shelf { OnOk result (self.new.shelf ≡ self.old.shelf) }
        ensures analysis { OnOk result (self.new.analysis ≡ self.old.analysis) }
        ensures len { OnOk result (length self.new.placed.trail.slots.items ≡ length self.old.placed.trail.slots.items) }
        ensures steps { OnOk result (self.new.placed.trail.steps.items ≡ take place self.old.placed.trail.steps.items) }
        ensures trail { OnOk result ((known : List OneClause) → IsTrail known self.old.placed → IsTrail known self.new.placed) }
    {
        for step in &self.placed.trail.steps.as_slice()[place..] {
            self.order.insert(step.falsified.variable)?;
        }
        self.placed.cut(place);
        Ok(())
    }

    // Takes back the levels from `level` on, which begins at `place`, and keeps the entry, which
    // watches its asserting literal and the one that became false last before.
    #[allow(clippy::too_many_arguments)]
    fn keep_entry(
        &mut self,
        clauses: &[Clause],
        entry: Entry,
        asserting: Lit,
        start: usize,
        keep: usize,
        level: usize,
        place: usize,
    ) -> Result<u32, AllocError>
        requires state { Holds clauses.now self.old }
        requires start { slice_get self.old.levels.items (length self.old.levels.items - 1) ≡ Some start }
        requires learns { Learns (known_before clauses.now self.old.entries) self.old.placed.trail.steps.items start entry.clause.lits entry.hints (Some asserting) keep }
        requires new { IsNew (known_before clauses.now self.old.entries) entry }
        requires level { slice_get self.old.levels.items level ≡ Some place }
        requires earlier { (i a : ℕ) → i < level → slice_get self.old.levels.items i ≡ Some a → a < keep }
        ensures { IfOk result (IsKept clauses.now self.old self.new asserting keep place) }
    {
        let second = second_of(&self.placed, asserting, keep);
        self.undo(place)?;
        self.levels.truncate(level);
        let index = next_index(clauses.len(), self.entries.len())?;
        let pair = Pair {
            first: asserting,
            second,
            aside: false,
        };
        self.watches.watch(index, pair)?;
        self.entries.push(entry)?;
        self.stock.add(index)?;
        Ok(index)
    }

    // Jumps back to the first level that begins at `keep` or later, where the entry has one
    // literal left, and makes that true.
    fn jump(
        &mut self,
        clauses: &[Clause],
        entry: Entry,
        asserting: Lit,
        start: usize,
        keep: usize,
    ) -> Result<(), AllocError>
        requires state { Holds clauses.now self.old }
        requires start { slice_get self.old.levels.items (length self.old.levels.items - 1) ≡ Some start }
        requires learns { Learns (known_before clauses.now self.old.entries) self.old.placed.trail.steps.items start entry.clause.lits entry.hints (Some asserting) keep }
        requires new { IsNew (known_before clauses.now self.old.entries) entry }
        ensures learned { OnOk result (LearnedIs clauses.now self.old self.new Learning.Asserted) }
        ensures more { OnOk result (length self.new.entries ≡ length self.old.entries + 1) }
    {
        let Some((level, place)) = level_from(self.levels.as_slice(), keep) else {
            unreachable!()
        };
        let index = self.keep_entry(clauses, entry, asserting, start, keep, level, place)?;
        self.placed.assign(asserting.opposite(), Some(index))?;
        Ok(())
    }

    // Takes back all decisions, where the entry has two literals left.
    fn restart(
        &mut self,
        clauses: &[Clause],
        entry: Entry,
        asserting: Lit,
        start: usize,
        base: usize,
        keep: usize,
    ) -> Result<(), AllocError>
        requires state { Holds clauses.now self.old }
        requires start { slice_get self.old.levels.items (length self.old.levels.items - 1) ≡ Some start }
        requires base { slice_get self.old.levels.items 0 ≡ Some base }
        requires learns { Learns (known_before clauses.now self.old.entries) self.old.placed.trail.steps.items start entry.clause.lits entry.hints (Some asserting) keep }
        requires new { IsNew (known_before clauses.now self.old.entries) entry }
        requires two { base < keep }
        ensures learned { OnOk result (LearnedIs clauses.now self.old self.new Learning.Cleared) }
        ensures more { OnOk result (length self.new.entries ≡ length self.old.entries + 1) }
    {
        let _index = self.keep_entry(clauses, entry, asserting, start, keep, 0, base)?;
        self.restarts.begin();
        Ok(())
    }
}

// The literal that became false last before `keep`, or the asserting one where nothing did.
fn second_of(placed: &PlacedTrail, asserting: Lit, keep: usize) -> Lit
    requires { keep ≤ length placed.now.trail.steps.items }
    ensures some { 0 < keep → (step : OneStep) × (slice_get placed.now.trail.steps.items (keep - 1) ≡ Some step) × (step.falsified ≡ result) }
    ensures none { keep ≡ 0 → result ≡ asserting }
{
    if keep == 0 {
        return asserting;
    }
    placed.trail.steps[keep - 1].falsified
}

// The first level that begins at `keep` or later, and where it does. It is sought from the last
// level back.
fn level_from(levels: &[usize], keep: usize) -> Option<(usize, usize)>
    ensures found { IfSome result (λ it. (slice_get levels.now it.0 ≡ Some it.1) × (keep ≤ it.1)) }
    ensures first { IfSome result (λ it. (level place : ℕ) → level + 1 ≡ it.0 → slice_get levels.now level ≡ Some place → place < keep) }
    ensures none { IfNone result ((place : ℕ) → slice_get levels.now (length levels.now - 1) ≡ Some place → place < keep) }
{
    let mut found = None;
    let mut level = levels.len();
    while level > 0 && levels[level - 1] >= keep {
        level -= 1;
        found = Some((level, levels[level]));
    }
    found
}

// Where the last level begins, and the first. Where there is none, all came before any decision.
fn levels_of(levels: &[usize], steps: usize) -> Levels
    ensures start { IsStart levels.now result.start }
    ensures base { ((levels.now ≡ []) × (result.base ≡ steps)) ⊎ (slice_get levels.now 0 ≡ Some result.base) }
{
    match levels {
        [] => Levels {
            start: 0,
            base: steps,
        },
        [base, .., start] => Levels {
            start: *start,
            base: *base,
        },
        [only] => Levels {
            start: *only,
            base: *only,
        },
    }
}

/// The number of the next entry as a hint. One that no hint can name is answered as want of memory.
pub(crate) fn next_index(clauses: usize, entries: usize) -> Result<u32, AllocError>
    ensures { IfOk result (λ index. index ≡ clauses + entries) }
{
    let Some(index) = clauses.checked_add(entries) else {
        return Err(AllocError);
    };
    match u32::try_from(index) {
        Ok(index) => Ok(index),
        Err(_) => Err(AllocError),
    }
}
