//! The decider that asks one query a question.
ghost use Rattle.std.specs.Prelude.{◌≡◌, ◌<◌, [], ◌∷◌, Ok, IfOk, OnOk, OnErr};
ghost use Rattle.sat_check.specs.Clauses.{ClausesAreBelow, IsUnsatisfiable};
ghost use Rattle.sat_check.specs.Logs.{EntriesAreBelow, IsRefutation};
ghost use Rattle.word_blast.specs.Queries.{ids, whole_of};
ghost use Rattle.word_blast.specs.Valuations.{AreTruths};
ghost use Rattle.entail.specs.Questions.{IsTruth, question_of, IsTrivial};
ghost use Rattle.entail.specs.Answers.{IsJustified};
ghost use Rattle.entail.specs.Solving.{IsSolved, IsQueried};

use crate::answer::Answer;
use crate::decider::Decider;
use crate::trivial::is_trivial;
use sat_check::{Cause, Log, Scratch, Verdict, check};
use sat_search::search;
use search_base::Found;
use std::alloc::{AllocError, Global};
use std::marker::Model;
use word_blast::{BlastRefusal, Query, blast, circuits_are_below, valuation_of};
use word_terms::{TermId, Terms};

/// The decider that asks one query a question, and none where `is_trivial` reads the answer
/// off. It tells no list of its questions. Contracts see it as the number of conflicts that its
/// searches are given.
#[derive(Drop)]
pub struct Plain {
    conflicts: u64,
}

impl Model for Plain {
    ghost use Rattle.std.specs.Prelude.{ℕ};

    ghost Value = { ℕ };

    ghost view = { λ p. p.conflicts };
}

impl Plain {
    ghost use Rattle.std.specs.Prelude.{None};

    /// The decider whose searches learn at most so many clauses. It takes no memory.
    pub fn new(conflicts: u64) -> Plain
        ensures conflicts { result ≡ conflicts }
        ensures asked { ⟦<Plain as Decider>⟧.asked result ≡ conflicts }
        ensures told { ⟦<Plain as Decider>⟧.told result ≡ None }
    {
        Plain { conflicts }
    }
}

impl Decider for Plain {
    ghost use Rattle.std.specs.Prelude.{None};

    ghost asked = { λ conflicts. conflicts };

    ghost told = { λ _. None };

    fn entails(
        &mut self,
        alloc: Global,
        terms: &Terms,
        facts: &[TermId],
        claim: TermId,
    ) -> Result<Answer, AllocError>
        requires facts { AreTruths terms.now.nodes (ids facts.now) }
        requires claim { IsTruth terms.now.nodes claim.0 }

        ensures justified { IfOk result (IsJustified self.old terms.now (ids facts.now) claim.0) }
        ensures kept { self.new ≡ self.old }

        // No memory is taken there, so that `Err` never comes.
        ensures trivial { IsTrivial (question_of terms.now (ids facts.now) claim.0) → result ≡ Ok Answer.Yes }

        ensures queried { ¬ IsTrivial (question_of terms.now (ids facts.now) claim.0) → IfOk result (IsQueried self.old terms.now (ids facts.now) claim.0) }
    {
        if is_trivial(terms, facts, claim) {
            return Ok(Answer::Yes);
        }
        ask(alloc, terms, facts, claim, self.conflicts)
    }
}

// Whether a valuation makes the facts true and the claim false, by a query.
fn ask(
    alloc: Global,
    terms: &Terms,
    facts: &[TermId],
    claim: TermId,
    conflicts: u64,
) -> Result<Answer, AllocError>
    requires facts { AreTruths terms.now.nodes (ids facts.now) }
    requires claim { IsTruth terms.now.nodes claim.0 }
    ensures justified { IfOk result (IsJustified conflicts terms.now (ids facts.now) claim.0) }
    ensures queried { IfOk result (IsQueried conflicts terms.now (ids facts.now) claim.0) }
{
    // That the table is well formed is known from here on.
    let _nodes = terms.nodes();
    circuits_are_below();
    match blast(alloc, terms, facts, &[claim]) {
        Ok(query) => solve(alloc, &query, conflicts),
        Err(BlastRefusal::TooLarge(weight)) => Ok(Answer::Undecided(Cause::TooLarge(weight))),
        Err(BlastRefusal::Memory) => Err(AllocError),
    }
}

// What a search over the query's clauses gives.
fn solve(alloc: Global, query: &Query, conflicts: u64) -> Result<Answer, AllocError>
    requires { ClausesAreBelow query.now.variables query.now.clauses }
    ensures { IfOk result (IsSolved conflicts (whole_of query.now)) }
{
    match search(alloc, query.variables, query.clauses.as_slice(), conflicts)? {
        Found::Assignment(values) => {
            let valuation = valuation_of(alloc, query, values.as_slice())?;
            Ok(Answer::No(valuation))
        }
        Found::Refuted(log) => {
            confirm(alloc, query, &log)?;
            Ok(Answer::Yes)
        }
        Found::Spent(log) => Ok(Answer::Undecided(Cause::Spent(log))),
    }
}

// Checks a log that refutes the query's clauses. The search isn't trusted.
fn confirm(alloc: Global, query: &Query, log: &Log) -> Result<(), AllocError>
    requires clauses_below { ClausesAreBelow query.now.variables query.now.clauses }
    requires log_below { EntriesAreBelow query.now.variables log.now.entries }
    requires refutation { IsRefutation query.now.clauses log.now.entries }
    ensures { OnOk result (IsUnsatisfiable query.now.clauses) }
{
    let mut scratch = Scratch::new(alloc, query.variables)?;
    match check(query.variables, query.clauses.as_slice(), log, &mut scratch) {
        Verdict::Refuted => Ok(()),
        Verdict::Derived(_) | Verdict::Fault(_) => unreachable!(),
    }
}
