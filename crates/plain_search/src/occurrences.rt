//! In which clauses a literal stands.
ghost use Rattle.std.specs.Prelude.{◌≡◌, ℕ, ◌<◌, length, List, IfOk, OnOk, slice_index_or};
ghost use Rattle.std.specs.List.{Contains};
ghost use Rattle.sat_check.specs.Clauses.{AreBelow};
ghost use Rattle.plain_search.specs.Occurrences.{occurrences_of, Adds, AddsAt};
ghost use Rattle.sat_check.specs.declared.clause.Lit.{Lit as OneLit};

use sat_check::Lit;
use std::alloc::{AllocError, Global};

/// For each variable the numbers of the clauses in which it stands, and of those in which its
/// negation does.
#[derive(Drop)]
pub(crate) struct Occurrences {
    pub(crate) positive: Vec<Vec<u32>>,
    pub(crate) negative: Vec<Vec<u32>>,
}

impl Occurrences {
    pub(crate) fn new(alloc: Global, variables: u32) -> Result<Occurrences, AllocError>
        ensures positive { IfOk result (λ all. length all.positive.items ≡ variables) }
        ensures negative { IfOk result (λ all. length all.negative.items ≡ variables) }
    {
        Ok(Occurrences {
            positive: no_lists(alloc, variables)?,
            negative: no_lists(alloc, variables)?,
        })
    }

    /// The numbers of the clauses in which the literal stands.
    pub(crate) fn of(&self, lit: Lit) -> &[u32]
        requires positive { lit.variable < length self.now.positive.items }
        requires negative { lit.variable < length self.now.negative.items }
        ensures { result.now ≡ occurrences_of self.now.positive.items self.now.negative.items lit }
    {
        if lit.positive {
            self.positive[lit.variable as usize].as_slice()
        } else {
            self.negative[lit.variable as usize].as_slice()
        }
    }

    /// Adds the literals of the clause of that number.
    pub(crate) fn add(&mut self, index: u32, lits: &[Lit]) -> Result<(), AllocError>
        requires positive { AreBelow (length self.old.positive.items) lits.now }
        requires negative { AreBelow (length self.old.negative.items) lits.now }
        ensures positive_len { length self.new.positive.items ≡ length self.old.positive.items }
        ensures negative_len { length self.new.negative.items ≡ length self.old.negative.items }
        ensures adds { OnOk result (Adds self.old.positive.items self.old.negative.items self.new.positive.items self.new.negative.items index lits.now) }
    {
        for lit in lits {
            if lit.positive {
                push_at(&mut self.positive, lit.variable, index)?;
            } else {
                push_at(&mut self.negative, lit.variable, index)?;
            }
        }
        Ok(())
    }
}

fn push_at(lists: &mut Vec<Vec<u32>>, place: u32, number: u32) -> Result<(), AllocError>
    requires { place < length lists.old.items }
    ensures len { length lists.new.items ≡ length lists.old.items }
    ensures adds { OnOk result (AddsAt lists.old.items lists.new.items place number) }
{
    lists[place as usize].push(number)?;
    Ok(())
}

fn no_lists(alloc: Global, variables: u32) -> Result<Vec<Vec<u32>>, AllocError>
    ensures { IfOk result (λ lists. length lists.items ≡ variables) }
{
    let mut lists = Vec::with_capacity(alloc, variables as usize)?;
    for _made in 0..variables {
        lists.push(Vec::new(alloc))?;
    }
    Ok(lists)
}
