//! The order in which variables are decided: those that took part in conflicts lately come first.
ghost use Rattle.std.specs.Prelude.{◌≡◌, ℕ, ◌+◌, ◌<◌, ◌≤◌, length, IfOk, OnOk, IfSome, List};
ghost use Rattle.std.specs.List.{All};

use std::alloc::{AllocError, Global};

/// A variable with its activity.
#[derive(Clone, Copy)]
struct Node {
    activity: u32,
    variable: u32,
}

/// A binary heap of variables by their activities, the greatest first, with the place of each
/// variable in it; and how many decisions and conflicts there were.
#[derive(Drop)]
pub(crate) struct Order {
    activities: Vec<u32>,
    places: Vec<u32>,
    heap: Vec<Node>,
    increment: u32,
    decisions: u64,
    conflicts: u64,
    ghost heap_below: { All (λ node. node.variable < length activities.items) heap.items },
    ghost places_len: { length places.items ≡ length activities.items },
}

// At this activity all are made smaller, in proportion.
const LIMIT: u32 = 1 << 31;

const SMALLER: u32 = 20;

// The place of a variable that isn't in the heap.
const ABSENT: u32 = u32::MAX;

// So many decisions for each conflict are few.
const FEW: u64 = 4;

impl Order {
    /// All variables, none of which took part in a conflict.
    pub(crate) fn new(alloc: Global, variables: u32) -> Result<Order, AllocError> {
        let mut order = Order {
            activities: vec![in alloc; 0; variables as usize]?,
            places: vec![in alloc; ABSENT; variables as usize]?,
            heap: Vec::with_capacity(alloc, variables as usize)?,
            increment: 1 << 10,
            decisions: 0,
            conflicts: 0,
        };
        for variable in 0..variables {
            order.insert(variable)?;
        }
        Ok(order)
    }

    /// Puts a variable back, unless it is there.
    pub(crate) fn insert(&mut self, variable: u32) -> Result<(), AllocError> {
        let index = variable as usize;
        if index >= self.places.len() || self.places[index] != ABSENT {
            return Ok(());
        }
        let place = self.heap.len();
        let activity = self.activities[index];
        self.heap.push(Node { activity, variable })?;
        self.rise(place);
        Ok(())
    }

    /// Takes out the variable of the greatest activity.
    pub(crate) fn pop(&mut self) -> Option<u32>
        ensures { IfSome result (λ _. length self.new.heap.items + 1 ≡ length self.old.heap.items) }
    {
        if self.heap.is_empty() {
            return None;
        }
        let variable = self.heap.swap_remove(0).variable;
        self.places[variable as usize] = ABSENT;
        if !self.heap.is_empty() {
            self.sink(0);
        }
        Some(variable)
    }

    /// A variable took part in a conflict.
    pub(crate) fn bump(&mut self, variable: u32) {
        let index = variable as usize;
        if index >= self.activities.len() {
            return;
        }
        let activity = self.activities[index].saturating_add(self.increment);
        self.activities[index] = activity;
        let place = self.places[index] as usize;
        if place < self.heap.len() {
            self.heap[place].activity = activity;
            self.rise(place);
        }
        if activity > LIMIT {
            self.scale();
        }
    }

    /// A variable was decided.
    pub(crate) fn count_decision(&mut self) {
        self.decisions = self.decisions.saturating_add(1);
    }

    /// Whether there were few decisions for each conflict.
    pub(crate) fn has_few_decisions(&self) -> bool {
        self.decisions / FEW < self.conflicts
    }

    /// One conflict more: what took part in earlier ones counts for less from now on.
    pub(crate) fn decay(&mut self) {
        self.increment = self.increment.saturating_add(self.increment / 20);
        self.conflicts = self.conflicts.saturating_add(1);
    }

    fn scale(&mut self) {
        for activity in self.activities.iter_mut() {
            *activity >>= SMALLER;
        }
        for place in 0..self.heap.len() {
            self.heap[place].activity >>= SMALLER;
        }
        self.increment >>= SMALLER;
        if self.increment == 0 {
            self.increment = 1;
        }
    }

    // The node stands at that place.
    fn put(&mut self, place: usize, node: Node)
        requires place { place < length self.old.heap.items }
        requires variable { node.variable < length self.old.activities.items }
        ensures heap { length self.new.heap.items ≡ length self.old.heap.items }
        ensures activities { self.new.activities ≡ self.old.activities }
    {
        self.heap[place] = node;
        self.places[node.variable as usize] = match u32::try_from(place) {
            Ok(place) => place,
            Err(_) => ABSENT,
        };
    }

    // Lets the variable at that place change places with those above it that are less active.
    fn rise(&mut self, mut place: usize)
        requires { place < length self.old.heap.items }
        ensures { length self.new.heap.items ≡ length self.old.heap.items }
    {
        let node = self.heap[place];
        while place > 0 && self.heap[(place - 1) / 2].activity < node.activity {
            let above = self.heap[(place - 1) / 2];
            self.put(place, above);
            place = (place - 1) / 2;
        }
        self.put(place, node);
    }

    // Lets the variable at that place change places with those below it that are more active.
    fn sink(&mut self, mut place: usize)
        requires { place < length self.old.heap.items }
        ensures { length self.new.heap.items ≡ length self.old.heap.items }
    {
        let node = self.heap[place];
        while let Some(child) = self.child_above(place, node.activity) {
            let below = self.heap[child];
            self.put(place, below);
            place = child;
        }
        self.put(place, node);
    }

    // The child of the greater activity, if that is above this one.
    fn child_above(&self, place: usize, activity: u32) -> Option<usize>
        requires { place < length self.now.heap.items }
        ensures { IfSome result (λ child. (place < child) × (child < length self.now.heap.items)) }
    {
        let child = self.greater_child(place)?;
        if self.heap[child].activity > activity {
            Some(child)
        } else {
            None
        }
    }

    // The child of the greater activity, if there is one.
    fn greater_child(&self, place: usize) -> Option<usize>
        requires { place < length self.now.heap.items }
        ensures { IfSome result (λ child. (place < child) × (child < length self.now.heap.items)) }
    {
        let left = 2 * place + 1;
        if left >= self.heap.len() {
            return None;
        }
        let right = left + 1;
        if right < self.heap.len() && self.heap[right].activity > self.heap[left].activity {
            Some(right)
        } else {
            Some(left)
        }
    }
}
