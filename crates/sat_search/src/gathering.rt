//! Where a conflict comes from: the literals of the clause that it teaches, and the reasons that
//! replace the others. Nobody relies on what is found here: `walk` tries it.
use crate::minimizing::Stop;
use crate::uses::Uses;
use sat_check::{Clause, Entry, Lit, named};
use search_state::PlacedTrail;
use std::alloc::{AllocError, Global};

/// How far a variable was gone over.
#[derive(Clone, Copy, PartialEq, Eq)]
pub(crate) enum Mark {
    /// No clause that was gone over has it.
    Unseen,
    /// It got its value on the last level.
    Late,
    /// It got its value on an earlier level, or before any decision.
    Early,
    /// Its value follows from what has the mark `Early`.
    Follows,
    /// Its value doesn't follow from that.
    Fails,
}

/// The places at which the last level begins, and the first.
#[derive(Clone, Copy)]
pub(crate) struct Levels {
    pub(crate) start: usize,
    pub(crate) base: usize,
}

/// The marks of the variables, and what was found of the last conflict.
#[derive(Drop)]
pub(crate) struct Gathering {
    /// For each variable its mark.
    pub(crate) marks: Vec<Mark>,
    /// The variables that took part in the conflict.
    pub(crate) seen: Vec<u32>,
    /// The variables that were marked in the tries to do without a literal.
    pub(crate) tried: Vec<u32>,
    /// The literals of earlier levels that stand in the clause.
    pub(crate) kept: Vec<Lit>,
    /// The literal of the last level that does.
    pub(crate) asserting: Option<Lit>,
    /// The reasons of what was replaced, oldest step first, and then the conflict.
    pub(crate) reasons: Vec<u32>,
    /// The places of what was replaced.
    pub(crate) replaced: Vec<usize>,
    /// The places of what got its value before any decision, and is still to be replaced.
    pub(crate) based: Vec<usize>,
    /// The way from a literal that may follow to the one that is looked at.
    pub(crate) way: Vec<Stop>,
    /// How many literals of the last level are still to be gone over.
    open: usize,
    /// How much each entry was used.
    pub(crate) uses: Uses,
}

impl Gathering {
    /// Nothing is marked.
    pub(crate) fn new(alloc: Global, variables: u32) -> Result<Gathering, AllocError> {
        Ok(Gathering {
            marks: vec![in alloc; Mark::Unseen; variables as usize]?,
            seen: Vec::new(alloc),
            tried: Vec::new(alloc),
            kept: Vec::new(alloc),
            asserting: None,
            reasons: Vec::new(alloc),
            replaced: Vec::new(alloc),
            based: Vec::new(alloc),
            way: Vec::new(alloc),
            open: 0,
            uses: Uses::new(alloc),
        })
    }

    /// Goes over a clause that is false, and over all that made it so.
    pub(crate) fn gather(
        &mut self,
        placed: &PlacedTrail,
        clauses: &[Clause],
        entries: &[Entry],
        conflict: u32,
        levels: Levels,
    ) -> Result<(), AllocError> {
        self.clear();
        if let Some(lits) = named(clauses, entries, conflict) {
            self.mark_all(placed, lits, levels)?;
        }
        self.go_back(placed, clauses, entries, levels)?;
        self.minimize(placed, clauses, entries, levels)?;
        self.replace_based(placed, clauses, entries, levels)?;
        self.list_reasons(placed)?;
        self.reasons.push(conflict)?;
        self.count(clauses.len(), entries.len())?;
        Ok(())
    }

    // Counts the entries among the reasons as used, and the next entry too.
    fn count(&mut self, clauses: usize, next: usize) -> Result<(), AllocError> {
        for reason in &self.reasons {
            if let Some(entry) = (*reason as usize).checked_sub(clauses) {
                self.uses.bump(entry)?;
            }
        }
        self.uses.bump(next)?;
        self.uses.decay();
        Ok(())
    }

    // Forgets the conflict before.
    fn clear(&mut self) {
        for variable in self.seen.iter().chain(&self.tried) {
            if let Some(mark) = self.marks.get_mut(*variable as usize) {
                *mark = Mark::Unseen;
            }
        }
        self.seen.clear();
        self.tried.clear();
        self.kept.clear();
        self.asserting = None;
        self.reasons.clear();
        self.replaced.clear();
        self.based.clear();
        self.open = 0;
    }

    // Marks the literals of a clause.
    fn mark_all(
        &mut self,
        placed: &PlacedTrail,
        lits: &[Lit],
        levels: Levels,
    ) -> Result<(), AllocError> {
        for lit in lits {
            self.mark(placed, *lit, levels)?;
        }
        Ok(())
    }

    // Marks a literal, and sees what is to become of it.
    fn mark(&mut self, placed: &PlacedTrail, lit: Lit, levels: Levels) -> Result<(), AllocError> {
        let Some(mark) = self.marks.get_mut(lit.variable as usize) else {
            return Ok(());
        };
        if *mark != Mark::Unseen {
            return Ok(());
        }
        let Some(place) = placed.places.get(lit.variable as usize) else {
            return Ok(());
        };
        self.seen.push(lit.variable)?;
        if *place < levels.base {
            *mark = Mark::Early;
            self.based.push(*place)?;
        } else if *place < levels.start {
            *mark = Mark::Early;
            self.kept.push(lit)?;
        } else {
            *mark = Mark::Late;
            self.open = self.open.saturating_add(1);
        }
        Ok(())
    }

    // Replaces the literal of a step by the others of its reason.
    fn replace(
        &mut self,
        placed: &PlacedTrail,
        clauses: &[Clause],
        entries: &[Entry],
        place: usize,
        levels: Levels,
    ) -> Result<(), AllocError> {
        self.replaced.push(place)?;
        if let Some(lits) = reason_of(placed, clauses, entries, place) {
            self.mark_all(placed, lits, levels)?;
        }
        Ok(())
    }

    // Goes back over the last level until one literal of it is left.
    fn go_back(
        &mut self,
        placed: &PlacedTrail,
        clauses: &[Clause],
        entries: &[Entry],
        levels: Levels,
    ) -> Result<(), AllocError> {
        for place in (0..placed.trail.steps.len()).rev() {
            if self.open == 0 {
                return Ok(());
            }
            let falsified = placed.trail.steps[place].falsified;
            if self.mark_of(falsified.variable) == Mark::Late {
                self.open -= 1;
                if self.open == 0 {
                    self.asserting = Some(falsified);
                } else {
                    self.replace(placed, clauses, entries, place, levels)?;
                }
            }
        }
        Ok(())
    }

    // Replaces what got its value before any decision. No place comes twice.
    fn replace_based(
        &mut self,
        placed: &PlacedTrail,
        clauses: &[Clause],
        entries: &[Entry],
        levels: Levels,
    ) -> Result<(), AllocError> {
        for _turn in 0..placed.trail.steps.len() {
            let Some(place) = self.based.pop() else {
                return Ok(());
            };
            self.replace(placed, clauses, entries, place, levels)?;
        }
        Ok(())
    }

    // Lists the reasons in the order in which they took effect.
    fn list_reasons(&mut self, placed: &PlacedTrail) -> Result<(), AllocError> {
        self.replaced.sort_unstable();
        for place in &self.replaced {
            if let Some(step) = placed.trail.steps.get(*place) {
                if let Some(reason) = step.reason {
                    self.reasons.push(reason)?;
                }
            }
        }
        Ok(())
    }

    /// The mark of a variable.
    pub(crate) fn mark_of(&self, variable: u32) -> Mark {
        match self.marks.get(variable as usize) {
            Some(mark) => *mark,
            None => Mark::Unseen,
        }
    }
}

/// Whether a variable got its value before that place.
pub(crate) fn is_before(placed: &PlacedTrail, variable: u32, base: usize) -> bool {
    match placed.places.get(variable as usize) {
        Some(place) => *place < base,
        None => false,
    }
}

/// The literals of the clause that made a step, if it isn't a decision.
pub(crate) fn reason_of<'a>(
    placed: &PlacedTrail,
    clauses: &'a [Clause],
    entries: &'a [Entry],
    place: usize,
) -> Option<&'a [Lit]> {
    let step = placed.trail.steps.get(place)?;
    let reason = step.reason?;
    named(clauses, entries, reason)
}
