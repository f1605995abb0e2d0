//! The places of the choices of formulas, found once for each formula of a program.
#![tactic(auto)]

ghost use Rattle.std.specs.Prelude.{◌≡◌, ◌++◌, map, IfOk, OnOk};
ghost use Rattle.gc0_tree.specs.Tree.{Conjuncts};
ghost use Rattle.gc0_tree.specs.Views.{conjunct_view, conjuncts_view, function_view, predicate_view, program_view};
ghost use Rattle.formula_choices.specs.ChoicePlaces.{choice_places, AreChoices};

use gc0_base::Place;
use gc0_tree::{Conjunct, Function, Predicate, Program};
use sqlite_items::Items;
use std::alloc::{AllocError, Global};

/// The places of the choices of each function's clauses and of each predicate's body, by number.
#[derive(Drop)]
pub struct ProgramChoices {
    /// Those of each `requires`.
    pub before: Items<Items<Place>>,
    /// Those of each `ensures`.
    pub after: Items<Items<Place>>,
    /// Those of each predicate's body.
    pub bodies: Items<Items<Place>>,
}

impl ProgramChoices {
    /// Finds them all.
    ///
    /// Errors: there was not memory enough.
    pub fn new(alloc: Global, program: &Program) -> Result<ProgramChoices, AllocError>
        ensures { IfOk result (λ c. AreChoices c (program_view program.now)) }
    {
        let functions = program.functions.as_slice();
        let before = places_before(alloc, functions)?;
        let after = places_after(alloc, functions)?;
        let bodies = places_in_bodies(alloc, program.predicates.as_slice())?;
        Ok(ProgramChoices {
            before,
            after,
            bodies,
        })
    }
}

// The places of the choices of each `requires`.
fn places_before(alloc: Global, functions: &[Function]) -> Result<Items<Items<Place>>, AllocError>
    ensures { IfOk result (λ ps. ps ≡ map (λ f. choice_places f.before.parts) (map function_view functions.now)) }
{
    let mut all = Items::new(alloc);
    for function in functions {
        all.push(choice_places(alloc, function.before.parts.as_slice())?)?;
    }
    Ok(all)
}

// The places of the choices of each `ensures`.
fn places_after(alloc: Global, functions: &[Function]) -> Result<Items<Items<Place>>, AllocError>
    ensures { IfOk result (λ ps. ps ≡ map (λ f. choice_places f.after.parts) (map function_view functions.now)) }
{
    let mut all = Items::new(alloc);
    for function in functions {
        all.push(choice_places(alloc, function.after.parts.as_slice())?)?;
    }
    Ok(all)
}

// The places of the choices of each predicate's body.
fn places_in_bodies(
    alloc: Global,
    predicates: &[Predicate],
) -> Result<Items<Items<Place>>, AllocError>
    ensures { IfOk result (λ ps. ps ≡ map (λ q. choice_places q.body) (map predicate_view predicates.now)) }
{
    let mut all = Items::new(alloc);
    for predicate in predicates {
        all.push(choice_places(alloc, predicate.body.as_slice())?)?;
    }
    Ok(all)
}

/// The places of the choices among conjuncts, in reading order.
///
/// Errors: there was not memory enough.
pub fn choice_places(alloc: Global, parts: &[Conjunct]) -> Result<Items<Place>, AllocError>
    ensures { IfOk result (λ places. places ≡ choice_places (conjuncts_view parts.now)) }
{
    let mut places = Items::new(alloc);
    push_parts(&mut places, parts)?;
    Ok(places)
}

// The places of the choices among conjuncts behind others.
#[cycle(conjuncts)]
fn push_parts(places: &mut Items<Place>, parts: &[Conjunct]) -> Result<(), AllocError>
    ensures { OnOk result (places.new ≡ places.old ++ choice_places (conjuncts_view parts.now)) }
{
    for part in parts {
        push_part(places, part)?;
    }
    Ok(())
}

// The places of the choices of one conjunct behind others: its own, and then those in its branches.
#[cycle(conjuncts)]
fn push_part(places: &mut Items<Place>, part: &Conjunct) -> Result<(), AllocError>
    ensures { OnOk result ((rest : Conjuncts) → places.new ++ choice_places rest ≡ places.old ++ choice_places (conjunct_view part.now rest)) }
{
    match part {
        Conjunct::Value(_) => Ok(()),
        Conjunct::Acc(_, _) => Ok(()),
        Conjunct::Instance(_, _, _) => Ok(()),
        Conjunct::Choice(at, _, these, those) => {
            places.push(*at)?;
            push_parts(places, these.as_slice())?;
            push_parts(places, those.as_slice())
        }
    }
}
