//! The checker of logs.
ghost use Rattle.std.specs.Prelude.{◌≡◌, ℕ, ◌<◌, ◌++◌, ◌↔◌, List, length, map, take, IsTrue, IfOk, MatchOption, slice_get};
ghost use Rattle.std.specs.Option.{option_copied};
ghost use Rattle.sat_check.specs.Clauses.{AreBelow, ClausesAreBelow, IsUnsatisfiable};
ghost use Rattle.sat_check.specs.Logs.{IsTautology, Refutes, Follows, IsFirstFault, IsRefutation, IsDerivation, EntriesAreBelow, NamesLits, known_before};
ghost use Rattle.sat_check.specs.Marks.{Shows, IsSound, FoundIs, SingleIsBelow, VerdictIs};
ghost use Rattle.sat_check.specs.declared.clause.Lit.{Lit as OneLit};

use crate::clause::{Clause, Lit};
use crate::log::{Entry, Log};
use crate::valuation::{Valuation, Value};
use std::alloc::{AllocError, Global};
use std::marker::Model;

/// What `check` needs beside its arguments, which contracts see as the number of variables that
/// it was made for. It can be used again and again.
#[derive(Drop)]
pub struct Scratch {
    valuation: Valuation,
}

impl Model for Scratch {
    ghost use Rattle.std.specs.Prelude.{ℕ, length};
    ghost use Rattle.sat_check.specs.Marks.{IsSound};

    ghost Value = { ℕ };

    ghost view = { λ s. length s.valuation.marks.items };

    ghost invariant = { λ s. IsSound s.valuation.round s.valuation.marks.items };
}

impl Scratch {
    /// The scratch of logs over so many variables.
    pub fn new(alloc: Global, variables: u32) -> Result<Scratch, AllocError>
        ensures { IfOk result (λ scratch. scratch ≡ variables) }
    {
        let valuation = Valuation::new(alloc, variables)?;
        Ok(Scratch { valuation })
    }
}

/// What `check` finds of a log.
#[derive(Clone, Copy, PartialEq, Eq, Debug)]
pub enum Verdict {
    /// Every entry follows, and one of them is empty: no assignment satisfies the clauses.
    Refuted,
    /// Every entry follows, so many there are, and none is empty.
    Derived(u64),
    /// This entry is the first that doesn't follow.
    Fault(u64),
}

/// What a walk finds at a clause.
#[derive(Clone, Copy)]
pub(crate) enum Found {
    AllFalse,
    Single(Lit),
    Neither,
}

// A literal that is true, or two that have no value, end it.
pub(crate) fn find(valuation: &Valuation, lits: &[Lit]) -> Found
    requires { AreBelow (length valuation.now.marks.items) lits.now }
    ensures found { (falses : List OneLit) → Shows valuation.now.round valuation.now.marks.items falses → FoundIs falses lits.now result }
    ensures below { SingleIsBelow (length valuation.now.marks.items) result }
{
    let mut single: Option<Lit> = None;
    for lit in lits {
        match valuation.value(*lit) {
            Value::False => {}
            Value::True => return Found::Neither,
            Value::Open => {
                if single.unwrap_or(*lit) != *lit {
                    return Found::Neither;
                }
                single = Some(*lit);
            }
        }
    }
    match single {
        Some(lit) => Found::Single(lit),
        None => Found::AllFalse,
    }
}

/// The literals of the clause that a hint names, over the clauses and the entries before, if it
/// names one.
pub fn named<'a>(clauses: &'a [Clause], earlier: &'a [Entry], hint: u32) -> Option<&'a [Lit]>
    ensures { NamesLits (known_before clauses.now earlier.now) hint (option_copied result) }
{
    let index = hint as usize;
    if index < clauses.len() {
        return Some(clauses[index].lits.as_slice());
    }
    let entry = earlier.get(index - clauses.len())?;
    Some(entry.clause.lits.as_slice())
}

// Makes the literals false, unless one stands together with its opposite.
fn begins(valuation: &mut Valuation, lits: &[Lit]) -> bool
    requires sound { IsSound valuation.old.round valuation.old.marks.items }
    requires below { AreBelow (length valuation.old.marks.items) lits.now }
    ensures len { length valuation.new.marks.items ≡ length valuation.old.marks.items }
    ensures sound { IsSound valuation.new.round valuation.new.marks.items }
    ensures no_tautology { IsTrue result ↔ (¬ IsTautology lits.now) }
    ensures shows { IsTrue result → Shows valuation.new.round valuation.new.marks.items lits.now }
{
    valuation.begin();
    for lit in lits {
        match valuation.value(*lit) {
            Value::False => {}
            Value::True => return false,
            Value::Open => valuation.set_false(*lit),
        }
    }
    true
}

// Follows the hints to a clause that is false.
fn refutes(valuation: &mut Valuation, clauses: &[Clause], earlier: &[Entry], hints: &[u32]) -> bool
    requires sound { IsSound valuation.old.round valuation.old.marks.items }
    requires clauses_below { ClausesAreBelow (length valuation.old.marks.items) clauses.now }
    requires earlier_below { EntriesAreBelow (length valuation.old.marks.items) earlier.now }
    ensures len { length valuation.new.marks.items ≡ length valuation.old.marks.items }
    ensures sound { IsSound valuation.new.round valuation.new.marks.items }
    ensures refutes { (falses : List OneLit) → Shows valuation.old.round valuation.old.marks.items falses → IsTrue result ↔ Refutes (known_before clauses.now earlier.now) falses hints.now }
{
    for (i, hint) in hints.iter().enumerate() {
        let Some(lits) = named(clauses, earlier, *hint) else {
            return false;
        };
        match find(valuation, lits) {
            Found::AllFalse => return i + 1 == hints.len(),
            Found::Single(lit) => valuation.set_false(lit.opposite()),
            Found::Neither => return false,
        }
    }
    false
}

fn follows(valuation: &mut Valuation, clauses: &[Clause], earlier: &[Entry], entry: &Entry) -> bool
    requires sound { IsSound valuation.old.round valuation.old.marks.items }
    requires clauses_below { ClausesAreBelow (length valuation.old.marks.items) clauses.now }
    requires earlier_below { EntriesAreBelow (length valuation.old.marks.items) earlier.now }
    requires entry_below { AreBelow (length valuation.old.marks.items) entry.now.clause.lits }
    ensures len { length valuation.new.marks.items ≡ length valuation.old.marks.items }
    ensures sound { IsSound valuation.new.round valuation.new.marks.items }
    ensures follows { IsTrue result ↔ Follows (known_before clauses.now earlier.now) entry.now }
{
    begins(valuation, entry.clause.lits.as_slice())
        && refutes(valuation, clauses, earlier, entry.hints.as_slice())
}

fn verdict_of(valuation: &mut Valuation, clauses: &[Clause], entries: &[Entry]) -> Verdict
    requires sound { IsSound valuation.old.round valuation.old.marks.items }
    requires clauses_below { ClausesAreBelow (length valuation.old.marks.items) clauses.now }
    requires entries_below { EntriesAreBelow (length valuation.old.marks.items) entries.now }
    ensures len { length valuation.new.marks.items ≡ length valuation.old.marks.items }
    ensures sound { IsSound valuation.new.round valuation.new.marks.items }
    ensures verdict { VerdictIs clauses.now entries.now result }
{
    let mut empty = false;
    for (index, entry) in entries.iter().enumerate() {
        if !follows(valuation, clauses, &entries[..index], entry) {
            return Verdict::Fault(index as u64);
        }
        if entry.clause.lits.is_empty() {
            empty = true;
        }
    }
    if empty {
        Verdict::Refuted
    } else {
        Verdict::Derived(entries.len() as u64)
    }
}

/// Checks a log over clauses, in time linear in the literals of the clauses that the log's hints
/// name. It takes no memory.
///
/// The clauses and the log are over `variables` variables, and so is the scratch.
pub fn check(variables: u32, clauses: &[Clause], log: &Log, scratch: &mut Scratch) -> Verdict
    requires scratch { scratch.old ≡ variables }
    requires clauses_below { ClausesAreBelow variables clauses.now }
    requires log_below { EntriesAreBelow variables log.now.entries }

    ensures fault { (index : ℕ) → (result ≡ Verdict.Fault index) ↔ IsFirstFault clauses.now log.now.entries index }
    ensures refuted { (result ≡ Verdict.Refuted) ↔ IsRefutation clauses.now log.now.entries }
    ensures derived { (count : ℕ) → (result ≡ Verdict.Derived count) ↔ IsDerivation clauses.now log.now.entries count }

    // Whoever wrote the log isn't trusted.
    ensures sound { result ≡ Verdict.Refuted → IsUnsatisfiable clauses.now }
    ensures scratch { scratch.new ≡ scratch.old }
{
    let _ = variables;
    verdict_of(&mut scratch.valuation, clauses, log.entries.as_slice())
}
