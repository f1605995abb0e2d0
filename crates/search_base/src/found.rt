//! What a search finds.
ghost use Rattle.std.specs.Prelude.{◌≡◌, IfOk};
ghost use Rattle.search_base.specs.Trails.{values_of};

use crate::trail::Slot;
use sat_check::Log;
use std::alloc::{AllocError, Global};
use std::marker::Model;

/// A value for each variable, which contracts see as a list.
#[derive(Drop)]
pub struct Values {
    values: Vec<bool>,
}

impl Model for Values {
    ghost use Rattle.std.specs.Prelude.{List, Bool};

    ghost Value = { List Bool };

    ghost view = { λ it. it.values.items };
}

impl Values {
    /// The values of `values`, in order.
    pub fn from_vec(values: Vec<bool>) -> Values
        ensures { result ≡ values.items }
    {
        Values { values }
    }

    /// The values as a `Vec`.
    pub fn into_vec(self) -> Vec<bool>
        ensures { result.items ≡ self }
    {
        self.values
    }

    /// The values, in order.
    pub fn as_slice(&self) -> &[bool]
        ensures { result.now ≡ self.now }
    {
        self.values.as_slice()
    }
}

/// What `search` finds.
#[derive(Drop)]
pub enum Found {
    /// A value for each variable, under which each clause is true.
    Assignment(Values),
    /// A log that `check` finds `Refuted`: no assignment satisfies the clauses.
    Refuted(Log),
    /// As many entries as were allowed, each of which follows and is new.
    Spent(Log),
}

// The slots tell which literal is false, and so the value is the other.
pub fn values_by(alloc: Global, slots: &[Slot]) -> Result<Values, AllocError>
    ensures { IfOk result (λ values. values ≡ values_of slots.now) }
{
    let mut values = Vec::new(alloc);
    for slot in slots {
        values.push(!slot.positive)?;
    }
    Ok(Values::from_vec(values))
}
