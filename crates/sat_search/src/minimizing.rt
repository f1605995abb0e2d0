//! Which literals of a clause follow from its others, so that it can do without them. Nobody relies
//! on what is found here: `walk` tries it.
//!
//! A literal follows where each other literal of its reason stands in the clause or follows itself
//! (Sörensson and Biere, "Minimizing Learned Clauses", 2009).
use crate::gathering::{Gathering, Levels, Mark, is_before, reason_of};
use sat_check::{Clause, Entry};
use search_state::PlacedTrail;
use std::alloc::AllocError;

/// A step whose reason is gone over, and the next literal of it.
#[derive(Clone, Copy)]
pub(crate) struct Stop {
    place: usize,
    next: usize,
}

/// What a look at the last stop of the way comes to.
#[derive(Clone, Copy)]
enum Outcome {
    /// The way is one stop longer or shorter, or its last stop is at the next literal.
    Goes,
    /// The literal at its end doesn't follow.
    Fails,
}

// So many looks at most are taken at one literal.
const LOOKS: usize = 4096;

impl Gathering {
    /// Replaces what follows from the literals that stay.
    pub(crate) fn minimize(
        &mut self,
        placed: &PlacedTrail,
        clauses: &[Clause],
        entries: &[Entry],
        levels: Levels,
    ) -> Result<(), AllocError> {
        for index in (0..self.kept.len()).rev() {
            let Some(lit) = self.kept.get(index) else {
                return Ok(());
            };
            let Some(place) = placed.places.get(lit.variable as usize) else {
                return Ok(());
            };
            let place = *place;
            let follows = self.follows(placed, clauses, entries, place, levels)?;
            if follows && index < self.kept.len() {
                let _lit = self.kept.swap_remove(index);
                self.replace_way(placed, clauses, entries, place, levels)?;
            }
        }
        Ok(())
    }

    // Whether the literal of that step follows from the others.
    fn follows(
        &mut self,
        placed: &PlacedTrail,
        clauses: &[Clause],
        entries: &[Entry],
        place: usize,
        levels: Levels,
    ) -> Result<bool, AllocError> {
        self.way.clear();
        self.way.push(Stop { place, next: 0 })?;
        for _look in 0..LOOKS {
            let Some(stop) = self.way.pop() else {
                return Ok(true);
            };
            match self.look(placed, clauses, entries, stop, levels)? {
                Outcome::Goes => {}
                Outcome::Fails => {
                    self.fail(placed, stop);
                    return Ok(false);
                }
            }
        }
        Ok(false)
    }

    // Looks at the next literal of a stop that was the last.
    fn look(
        &mut self,
        placed: &PlacedTrail,
        clauses: &[Clause],
        entries: &[Entry],
        stop: Stop,
        levels: Levels,
    ) -> Result<Outcome, AllocError> {
        let Some(lits) = reason_of(placed, clauses, entries, stop.place) else {
            return Ok(Outcome::Fails);
        };
        let Some(lit) = lits.get(stop.next) else {
            return Ok(Outcome::Goes);
        };
        let mark = self.mark_of(lit.variable);
        if mark == Mark::Fails {
            return Ok(Outcome::Fails);
        }
        self.way.push(Stop {
            place: stop.place,
            next: stop.next.saturating_add(1),
        })?;
        if mark == Mark::Unseen && !is_before(placed, lit.variable, levels.base) {
            self.set_mark(lit.variable, Mark::Follows)?;
            if let Some(place) = placed.places.get(lit.variable as usize) {
                self.way.push(Stop {
                    place: *place,
                    next: 0,
                })?;
            }
        }
        Ok(Outcome::Goes)
    }

    // No literal of the way follows. The first stands in the clause, and so it stays.
    fn fail(&mut self, placed: &PlacedTrail, last: Stop) {
        self.set_failed(placed, last.place);
        for index in 0..self.way.len() {
            let Some(stop) = self.way.get(index) else {
                return;
            };
            let place = stop.place;
            self.set_failed(placed, place);
        }
    }

    fn set_failed(&mut self, placed: &PlacedTrail, place: usize) {
        if let Some(step) = placed.trail.steps.get(place) {
            if let Some(mark) = self.marks.get_mut(step.falsified.variable as usize) {
                if *mark == Mark::Follows {
                    *mark = Mark::Fails;
                }
            }
        }
    }

    // Marks a variable that has no mark.
    fn set_mark(&mut self, variable: u32, new: Mark) -> Result<(), AllocError> {
        if let Some(mark) = self.marks.get_mut(variable as usize) {
            *mark = new;
            self.tried.push(variable)?;
        }
        Ok(())
    }

    // Replaces the literal of a step, and all by which it follows from what stays.
    fn replace_way(
        &mut self,
        placed: &PlacedTrail,
        clauses: &[Clause],
        entries: &[Entry],
        place: usize,
        levels: Levels,
    ) -> Result<(), AllocError> {
        self.way.clear();
        self.way.push(Stop { place, next: 0 })?;
        for _turn in 0..placed.trail.steps.len() {
            let Some(stop) = self.way.pop() else {
                return Ok(());
            };
            self.replaced.push(stop.place)?;
            if let Some(lits) = reason_of(placed, clauses, entries, stop.place) {
                for lit in lits {
                    self.replace_lit(placed, lit.variable, levels)?;
                }
            }
        }
        Ok(())
    }

    // Sees what is to become of a variable of a reason.
    fn replace_lit(
        &mut self,
        placed: &PlacedTrail,
        variable: u32,
        levels: Levels,
    ) -> Result<(), AllocError> {
        let Some(place) = placed.places.get(variable as usize) else {
            return Ok(());
        };
        match self.mark_of(variable) {
            Mark::Follows => {
                if let Some(mark) = self.marks.get_mut(variable as usize) {
                    *mark = Mark::Early;
                }
                self.way.push(Stop {
                    place: *place,
                    next: 0,
                })?;
            }
            Mark::Unseen => {
                if *place < levels.base {
                    self.set_mark(variable, Mark::Early)?;
                    self.based.push(*place)?;
                }
            }
            _ => {}
        }
        Ok(())
    }
}
