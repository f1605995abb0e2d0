//! Which entries watch, how many may, and which of them are set aside where there are too many.
//! Nobody relies on what is chosen here.
use crate::uses::Uses;
use sat_check::Entry;
use search_state::PlacedTrail;
use std::alloc::{AllocError, Global};

/// The numbers of the entries that watch, and how many may; and after how many more entries the
/// limit rises, and how many were between the last times that it did.
#[derive(Drop)]
pub(crate) struct Stock {
    watched: Vec<u32>,
    limit: usize,
    left: usize,
    step: usize,
}

// So many entries always may watch.
const LEAST: usize = 600;

// After so many entries the limit rises for the first time, by a tenth, and then after half as
// many more each time (Eén and Sörensson, "An Extensible SAT-solver", 2003).
const STEP: usize = 100;

// The score of an entry that stays.
const STAYS: u64 = u64::MAX;

impl Stock {
    /// No entry watches. At first a third as many may as there are clauses.
    pub(crate) fn new(alloc: Global, clauses: usize) -> Stock {
        let third = clauses / 3;
        Stock {
            watched: Vec::new(alloc),
            limit: if third > LEAST { third } else { LEAST },
            left: STEP,
            step: STEP,
        }
    }

    /// The entry of that number watches.
    pub(crate) fn add(&mut self, number: u32) -> Result<(), AllocError> {
        self.watched.push(number)?;
        self.left = self.left.saturating_sub(1);
        if self.left == 0 {
            self.limit = self.limit.saturating_add(self.limit / 10);
            self.step = self.step.saturating_add(self.step / 2);
            self.left = self.step;
        }
        Ok(())
    }

    /// Whether so many entries watch as may.
    pub(crate) fn is_full(&self) -> bool {
        self.watched.len() >= self.limit
    }

    /// Chooses the entries that are to be set aside: the less useful half, without such of one or
    /// two literals and such that gave a literal its value.
    pub(crate) fn choose(
        &mut self,
        alloc: Global,
        placed: &PlacedTrail,
        clauses: usize,
        entries: &[Entry],
        uses: &Uses,
    ) -> Result<Vec<u32>, AllocError> {
        let mut scores = Vec::with_capacity(alloc, self.watched.len())?;
        for number in &self.watched {
            scores.push(score_of(placed, clauses, entries, uses, *number))?;
        }
        let middle = middle_of(&mut scores);
        let mut stays = Vec::with_capacity(alloc, self.watched.len())?;
        let mut chosen = Vec::with_capacity(alloc, self.watched.len())?;
        for number in &self.watched {
            if score_of(placed, clauses, entries, uses, *number) < middle {
                chosen.push(*number)?;
            } else {
                stays.push(*number)?;
            }
        }
        self.watched = stays;
        Ok(chosen)
    }
}

// The more an entry was used, and the shorter it is, the higher.
fn score_of(
    placed: &PlacedTrail,
    clauses: usize,
    entries: &[Entry],
    uses: &Uses,
    number: u32,
) -> u64 {
    let index = (number as usize).saturating_sub(clauses);
    let Some(entry) = entries.get(index) else {
        return STAYS;
    };
    let lits = entry.clause.lits.as_slice();
    if lits.len() <= 2 {
        return STAYS;
    }
    for lit in lits {
        if is_reason(placed, number, lit.variable) {
            return STAYS;
        }
    }
    uses.of(index) / lits.len() as u64
}

// Whether the clause of that number gave the variable its value.
fn is_reason(placed: &PlacedTrail, number: u32, variable: u32) -> bool {
    let Some(place) = placed.places.get(variable as usize) else {
        return false;
    };
    match placed.trail.steps.get(*place) {
        Some(step) => step.falsified.variable == variable && step.reason == Some(number),
        None => false,
    }
}

// The score in the middle of their order.
fn middle_of(scores: &mut Vec<u64>) -> u64 {
    scores.sort_unstable();
    match scores.get(scores.len() / 2) {
        Some(score) => *score,
        None => 0,
    }
}
