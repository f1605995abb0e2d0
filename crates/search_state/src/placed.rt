//! The trail, with the place of each variable on it.
ghost use Rattle.std.specs.Prelude.{◌≡◌, ◌<◌, ◌≤◌, [], ◌∷◌, ◌++◌, length, take, List, IfOk, OnOk, slice_set, true};
ghost use Rattle.search_base.specs.Trails.{Keeps};
ghost use Rattle.search_state.specs.Watches.{IsTrail};
ghost use Rattle.sat_check.specs.declared.clause.Clause.{Clause as OneClause};

use sat_check::Lit;
use search_base::Trail;
use std::alloc::{AllocError, Global};

/// The trail, and the place of the step at which each variable last got a value.
#[derive(Drop)]
pub struct PlacedTrail {
    pub trail: Trail,
    pub places: Vec<usize>,
}

impl PlacedTrail {
    /// No variable has a value.
    pub fn new(alloc: Global, variables: u32) -> Result<PlacedTrail, AllocError>
        ensures len { IfOk result (λ it. length it.trail.slots.items ≡ variables) }
        ensures steps { IfOk result (λ it. it.trail.steps.items ≡ []) }
        ensures trail { IfOk result (λ it. (known : List OneClause) → IsTrail known it) }
    {
        let trail = Trail::new(alloc, variables)?;
        let places = vec![in alloc; 0; variables as usize]?;
        Ok(PlacedTrail { trail, places })
    }

    /// Makes a literal false.
    pub fn assign(&mut self, falsified: Lit, reason: Option<u32>) -> Result<(), AllocError>
        requires below { falsified.variable < length self.old.trail.slots.items }
        requires places { length self.old.places.items ≡ length self.old.trail.slots.items }
        ensures steps { OnOk result (self.new.trail.steps.items ≡ self.old.trail.steps.items ++ (record { falsified = falsified; reason = reason }) ∷ []) }
        ensures slots { OnOk result (self.new.trail.slots.items ≡ slice_set self.old.trail.slots.items falsified.variable (record { assigned = true; positive = falsified.positive })) }
        ensures places { OnOk result (self.new.places.items ≡ slice_set self.old.places.items falsified.variable (length self.old.trail.steps.items)) }
    {
        self.places[falsified.variable as usize] = self.trail.steps.len();
        self.trail.assign(falsified, reason)?;
        Ok(())
    }

    /// Takes back all steps but the first so many.
    pub fn cut(&mut self, count: usize)
        requires trail { (known : List OneClause) × IsTrail known self.old }
        requires within { count ≤ length self.old.trail.steps.items }
        ensures len { length self.new.trail.slots.items ≡ length self.old.trail.slots.items }
        ensures steps { self.new.trail.steps.items ≡ take count self.old.trail.steps.items }
        ensures trail { (known : List OneClause) → IsTrail known self.old → IsTrail known self.new }
    {
        self.trail.cut(count);
    }
}
