//! The literals that are false, in the order in which they became so.
ghost use Rattle.std.specs.Prelude.{◌≡◌, ◌+◌, ◌-◌, ◌<◌, ◌≤◌, ◌^◌, [], ◌∷◌, ◌++◌, length, take, List, IfOk, OnOk, IfSome, IfNone, true, false, slice_set, slice_get, Some};
ghost use Rattle.std.specs.List.{All};
ghost use Rattle.sat_check.specs.Clauses.{AreBelow};
ghost use Rattle.search_base.specs.Trails.{Shows, Keeps, IsStep, ReadingIs, SingleIsBelow, falses_of};
ghost use Rattle.sat_check.specs.declared.clause.Lit.{Lit as OneLit};
ghost use Rattle.sat_check.specs.declared.clause.Clause.{Clause as OneClause};
ghost use Rattle.search_base.specs.declared.trail.Slot.{Slot as OneSlot};

use sat_check::Lit;
use std::alloc::{AllocError, Global};

/// Whether a variable has a value, and which of its literals is false, or last was.
#[derive(Clone, Copy)]
pub struct Slot {
    pub assigned: bool,
    pub positive: bool,
}

/// A literal that became false, by the clause of that number or by a decision.
#[derive(Clone, Copy)]
pub struct Step {
    pub falsified: Lit,
    pub reason: Option<u32>,
}

/// The values of all variables, and the steps that gave them.
#[derive(Drop)]
pub struct Trail {
    pub slots: Vec<Slot>,
    pub steps: Vec<Step>,
}

/// What the values make of a clause.
#[derive(Clone, Copy)]
pub enum Reading {
    AllFalse,
    Single(Lit),
    Neither,
}

impl Trail {
    /// No variable has a value.
    pub fn new(alloc: Global, variables: u32) -> Result<Trail, AllocError>
        ensures len { IfOk result (λ trail. length trail.slots.items ≡ variables) }
        ensures steps { IfOk result (λ trail. trail.steps.items ≡ []) }
        ensures keeps { IfOk result (λ trail. (known : List OneClause) → Keeps known trail.slots.items trail.steps.items) }
    {
        let open = Slot {
            assigned: false,
            positive: true,
        };
        let slots = vec![in alloc; open; variables as usize]?;
        Ok(Trail {
            slots,
            steps: Vec::new(alloc),
        })
    }

    /// Makes a literal false.
    pub fn assign(&mut self, falsified: Lit, reason: Option<u32>) -> Result<(), AllocError>
        requires { falsified.variable < length self.old.slots.items }
        ensures len { length self.new.slots.items ≡ length self.old.slots.items }
        ensures steps { OnOk result (self.new.steps.items ≡ self.old.steps.items ++ (record { falsified = falsified; reason = reason }) ∷ []) }
        ensures slots { OnOk result (self.new.slots.items ≡ slice_set self.old.slots.items falsified.variable (record { assigned = true; positive = falsified.positive })) }
    {
        let slot = Slot {
            assigned: true,
            positive: falsified.positive,
        };
        self.slots[falsified.variable as usize] = slot;
        self.steps.push(Step { falsified, reason })?;
        Ok(())
    }

    /// Takes back all steps but the first so many.
    pub fn cut(&mut self, count: usize)
        requires keeps { (known : List OneClause) × Keeps known self.old.slots.items self.old.steps.items }
        requires within { count ≤ length self.old.steps.items }
        ensures len { length self.new.slots.items ≡ length self.old.slots.items }
        ensures steps { self.new.steps.items ≡ take count self.old.steps.items }
        ensures keeps { (known : List OneClause) → Keeps known self.old.slots.items self.old.steps.items → Keeps known self.new.slots.items self.new.steps.items }
    {
        while self.steps.len() > count {
            self.take_back();
        }
    }

    // Takes back the last step.
    fn take_back(&mut self)
        requires keeps { (known : List OneClause) × Keeps known self.old.slots.items self.old.steps.items }
        requires some { 0 < length self.old.steps.items }
        ensures len { length self.new.slots.items ≡ length self.old.slots.items }
        ensures steps { self.new.steps.items ≡ take (length self.old.steps.items - 1) self.old.steps.items }
        ensures keeps { (known : List OneClause) → Keeps known self.old.slots.items self.old.steps.items → Keeps known self.new.slots.items self.new.steps.items }
    {
        let Some(step) = self.steps.pop() else {
            return;
        };
        self.slots[step.falsified.variable as usize].assigned = false;
    }
}

/// What the values make of a clause. A literal that is true, or two that have no value, settle it.
pub fn read(slots: &[Slot], lits: &[Lit]) -> Reading
    requires { AreBelow (length slots.now) lits.now }
    ensures reading { (falses : List OneLit) → Shows slots.now falses → ReadingIs falses lits.now result }
    ensures below { SingleIsBelow (length slots.now) result }
{
    let mut single: Option<Lit> = None;
    for lit in lits {
        let slot = slots[lit.variable as usize];
        if !slot.assigned {
            if single.unwrap_or(*lit) != *lit {
                return Reading::Neither;
            }
            single = Some(*lit);
        } else if slot.positive != lit.positive {
            return Reading::Neither;
        }
    }
    match single {
        Some(lit) => Reading::Single(lit),
        None => Reading::AllFalse,
    }
}

/// A variable without a value, sought from `cursor` on and then everywhere.
pub fn open_variable(slots: &[Slot], cursor: usize) -> Option<usize>
    ensures found { IfSome result (λ v. (v < length slots.now) × ((slot : OneSlot) → slice_get slots.now v ≡ Some slot → slot.assigned ≡ false)) }
    ensures none { IfNone result (All (λ slot. slot.assigned ≡ true) slots.now) }
{
    for variable in cursor..slots.len() {
        if !slots[variable].assigned {
            return Some(variable);
        }
    }
    slots.iter().position(|slot| !slot.assigned)
}
