//! Queries: terms as clauses, and valuations from assignments.
ghost use Rattle.std.specs.Prelude.{◌≡◌, ◌+◌, ◌*◌, ◌<◌, ◌≤◌, ◌++◌, ℕ, IfOk, OnOk};
ghost use Rattle.word_terms.specs.Terms.{truth_word};
ghost use Rattle.word_terms.specs.Weights.{weight_of};
ghost use Rattle.word_blast.specs.Circuits.{circuit};
ghost use Rattle.word_blast.specs.Valuations.{AreTruths, FitSorts, IsReadFrom, assigned, input_word, leaves_of};
ghost use Rattle.word_blast.specs.Queries.{ids, whole_of, words_of, IsExact, IsWeighed};

use crate::blasted::{Input, blast_terms};
use gc0_base::{Limits, Word};
use sat_check::Clause;
use std::alloc::{AllocError, Global};
use std::marker::Model;
use word_terms::{TermId, Terms, Valuation, Words};

/// A list of clauses, which contracts see as the list of its items.
#[derive(Drop)]
pub struct Clauses {
    clauses: Vec<Clause>,
}

impl Model for Clauses {
    ghost use Rattle.std.specs.Prelude.{List};
    ghost use Rattle.sat_check.specs.declared.clause.Clause.{Clause as OneClause};

    ghost Value = { List OneClause };

    ghost view = { λ c. c.clauses.items };
}

impl Clauses {
    /// The list of a vector's clauses. It takes no memory.
    pub fn from_vec(clauses: Vec<Clause>) -> Clauses
        ensures { result ≡ clauses.items }
    {
        Clauses { clauses }
    }

    /// The vector of the list's clauses. It takes no memory.
    pub fn into_vec(self) -> Vec<Clause>
        ensures { result.items ≡ self }
    {
        let Clauses { clauses } = self;
        clauses
    }

    /// The clauses, in their order.
    pub fn as_slice(&self) -> &[Clause]
        ensures { result.now ≡ self.now }
    {
        self.clauses.as_slice()
    }
}

/// Clauses over the variables below a number, and the variables of each symbol.
#[derive(Drop)]
pub struct Query {
    /// The number of variables.
    pub variables: u32,
    pub clauses: Clauses,
    inputs: Vec<Input>,
}

/// Why there is no query.
#[derive(Clone, Copy, Debug, PartialEq, Eq)]
pub enum BlastRefusal {
    /// The terms weigh so much, which is above `Limits::WEIGHT`.
    TooLarge(u64),
    /// Memory was wanting.
    Memory,
}

/// The clauses of the terms under the truths and the falsehoods: a valuation makes the truths
/// true and the falsehoods false exactly where an assignment with its bits satisfies them.
pub fn blast(
    alloc: Global,
    terms: &Terms,
    truths: &[TermId],
    falsehoods: &[TermId],
) -> Result<Query, BlastRefusal>
    requires truths { AreTruths terms.now.nodes (ids truths.now) }
    requires falsehoods { AreTruths terms.now.nodes (ids falsehoods.now) }
    ensures circuit { IfOk result (λ q. whole_of q ≡ circuit terms.now (ids truths.now) (ids falsehoods.now)) }
    ensures exact { IfOk result (λ q. IsExact terms.now (ids truths.now) (ids falsehoods.now) (whole_of q)) }
    ensures few { IfOk result (λ q. q.variables ≤ 4 * weight_of terms.now.nodes (ids truths.now ++ ids falsehoods.now) + 32 * leaves_of terms.now.nodes (ids truths.now ++ ids falsehoods.now) + 32) }
    ensures fit { IfOk result (λ q. FitSorts terms.now.sorts (whole_of q).inputs) }
    ensures small { OnOk result (weight_of terms.now.nodes (ids truths.now ++ ids falsehoods.now) ≤ Limits.WEIGHT) }
    ensures too_large { (w : ℕ) → result ≡ Err (BlastRefusal.TooLarge w) → (w ≡ weight_of terms.now.nodes (ids truths.now ++ ids falsehoods.now)) × (Limits.WEIGHT < w) }
{
    match small_query(alloc, terms, truths, falsehoods) {
        Ok(Weighed::Query(query)) => Ok(query),
        Ok(Weighed::TooLarge(weight)) => Err(BlastRefusal::TooLarge(weight)),
        Err(_) => Err(BlastRefusal::Memory),
    }
}

// A query, or the weight that is too large for one.
#[derive(Drop)]
enum Weighed {
    Query(Query),
    TooLarge(u64),
}

fn small_query(
    alloc: Global,
    terms: &Terms,
    truths: &[TermId],
    falsehoods: &[TermId],
) -> Result<Weighed, AllocError>
    requires truths { AreTruths terms.now.nodes (ids truths.now) }
    requires falsehoods { AreTruths terms.now.nodes (ids falsehoods.now) }
    ensures { IfOk result (IsWeighed terms.now (ids truths.now) (ids falsehoods.now)) }
{
    let mut roots = Vec::from_slice(alloc, truths)?;
    roots.extend_from_slice(falsehoods)?;
    let weight = terms.gates(&roots)?;
    if weight > Limits::WEIGHT {
        return Ok(Weighed::TooLarge(weight));
    }
    let blast = blast_terms(alloc, terms, &roots)?;
    let parts = blast.finish(truths, falsehoods)?;
    Ok(Weighed::Query(Query {
        variables: parts.variables,
        clauses: Clauses::from_vec(parts.clauses),
        inputs: parts.inputs,
    }))
}

/// The valuation of an assignment of a query's variables, which makes the query's truths true
/// and its falsehoods false where the assignment satisfies the clauses. A symbol that the
/// query doesn't ask for gets 0.
pub fn valuation_of(
    alloc: Global,
    query: &Query,
    assignment: &[bool],
) -> Result<Valuation, AllocError>
    ensures words { IfOk result (λ v. v.words ≡ words_of (assigned assignment.now) (whole_of query.now).inputs) }
    ensures bits { IfOk result (λ v. IsReadFrom (assigned assignment.now) (whole_of query.now).inputs v.words) }
{
    let mut words = Vec::new(alloc);
    for input in &query.inputs {
        words.push(Word(word_of_bits(*input, assignment)))?;
    }
    Ok(Valuation {
        words: Words::from_vec(words),
    })
}

// The word of a symbol's bits.
fn word_of_bits(input: Input, assignment: &[bool]) -> u32
    ensures { result ≡ input_word (assigned assignment.now) input }
{
    let mut word = 0u32;
    for i in (0..input.count).rev() {
        let bit = value_of(assignment, input.first as usize + i as usize);
        word = word.wrapping_mul(2).wrapping_add(number_of(bit));
    }
    word
}

// What a variable is, false behind the end.
fn value_of(assignment: &[bool], variable: usize) -> bool
    ensures { result ≡ assigned assignment.now variable }
{
    if variable < assignment.len() {
        assignment[variable]
    } else {
        false
    }
}

fn number_of(bit: bool) -> u32
    ensures { result ≡ truth_word bit }
{
    u32::from(bit)
}
