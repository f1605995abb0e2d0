//! Which literals are false on a walk over hints, kept so that a new walk starts at no cost.
ghost use Rattle.std.specs.Prelude.{◌≡◌, ◌<◌, [], ◌∷◌, length, List, vec_len, IfOk};
ghost use Rattle.std.specs.List.{All, Contains};
ghost use Rattle.sat_check.specs.Clauses.{opposite_of};
ghost use Rattle.sat_check.specs.Marks.{IsMarked, Shows, IsSound, ValueIs};
ghost use Rattle.sat_check.specs.declared.clause.Lit.{Lit as OneLit};

use crate::clause::Lit;
use std::alloc::{AllocError, Global};

/// Which literal of a variable was last made false, and in which round.
#[derive(Clone, Copy)]
pub(crate) struct Mark {
    pub(crate) round: u32,
    pub(crate) positive: bool,
}

/// The marks of all variables. Those of earlier rounds don't count.
#[derive(Drop)]
pub(crate) struct Valuation {
    pub(crate) round: u32,
    pub(crate) marks: Vec<Mark>,
}

/// What a walk knows of a literal.
#[derive(Clone, Copy)]
pub(crate) enum Value {
    Open,
    True,
    False,
}

impl Valuation {
    pub(crate) fn new(alloc: Global, variables: u32) -> Result<Valuation, AllocError>
        ensures len { IfOk result (λ v. length v.marks.items ≡ variables) }
        ensures sound { IfOk result (λ v. IsSound v.round v.marks.items) }
    {
        let unmarked = Mark {
            round: 0,
            positive: false,
        };
        let marks = vec![in alloc; unmarked; variables as usize]?;
        Ok(Valuation { round: 0, marks })
    }

    pub(crate) fn value(&self, lit: Lit) -> Value
        requires { lit.variable < length self.now.marks.items }
        ensures { ValueIs self.now.round self.now.marks.items lit result }
    {
        let mark = self.marks[lit.variable as usize];
        if mark.round != self.round {
            Value::Open
        } else if mark.positive == lit.positive {
            Value::False
        } else {
            Value::True
        }
    }

    /// Starts a round, in which no variable has a value.
    pub(crate) fn begin(&mut self)
        requires { IsSound self.old.round self.old.marks.items }
        ensures len { length self.new.marks.items ≡ length self.old.marks.items }
        ensures sound { IsSound self.new.round self.new.marks.items }
        ensures shows { Shows self.new.round self.new.marks.items [] }
    {
        if self.round == u32::MAX {
            self.round = 0;
            forget(&mut self.marks);
        }
        self.round += 1;
    }

    /// Makes a literal false.
    pub(crate) fn set_false(&mut self, lit: Lit)
        requires { lit.variable < length self.old.marks.items }
        ensures len { length self.new.marks.items ≡ length self.old.marks.items }
        ensures sound { IsSound self.old.round self.old.marks.items → IsSound self.new.round self.new.marks.items }
        ensures shows { (falses : List OneLit) → Shows self.old.round self.old.marks.items falses → ¬ Contains falses (opposite_of lit) → Shows self.new.round self.new.marks.items (lit ∷ falses) }
    {
        let mark = Mark {
            round: self.round,
            positive: lit.positive,
        };
        self.marks[lit.variable as usize] = mark;
    }
}

// Once in four billion rounds the marks are written anew.
fn forget(marks: &mut Vec<Mark>)
    ensures len { length marks.new.items ≡ length marks.old.items }
    ensures rounds { All (λ mark. mark.round ≡ 0) marks.new.items }
{
    for i in 0..marks.len() {
        marks[i].round = 0;
    }
}
