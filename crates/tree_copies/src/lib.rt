//! Copies of what a core keeps of its program: formulas, annotations, structs, predicates, names
//! and texts.
#![tactic(auto)]

mod conjuncts;
mod expressions;

ghost use Rattle.std.specs.Prelude.{◌≡◌, map, IfOk};
ghost use Rattle.gc0_base.specs.declared.place.Place.{Place};
ghost use Rattle.gc0_tree.specs.Views.{formula_view, note_form, struct_view, predicate_view};

use crate::conjuncts::copy_parts;
use gc0_base::Place;
use gc0_tree::{Formula, Note, Predicate, Shape, Struct};
use sqlite_items::Items;
use std::alloc::{AllocError, Global};

/// A copy of a formula.
///
/// Errors: there was not memory enough.
pub fn copy_formula(alloc: Global, formula: &Formula) -> Result<Formula, AllocError>
    ensures { IfOk result (λ f. formula_view f ≡ formula_view formula.now) }
{
    let parts = copy_parts(alloc, formula.parts.as_slice())?;
    Ok(Formula {
        imprecise: formula.imprecise,
        parts,
    })
}

/// A copy of an annotation.
///
/// Errors: there was not memory enough.
pub fn copy_note(alloc: Global, note: &Note) -> Result<Note, AllocError>
    ensures { IfOk result (λ n. (at : Place) → note_form n at ≡ note_form note.now at) }
{
    match note {
        Note::Assert(formula) => Ok(Note::Assert(copy_formula(alloc, formula)?)),
        Note::Fold(formula) => Ok(Note::Fold(copy_formula(alloc, formula)?)),
        Note::Unfold(formula) => Ok(Note::Unfold(copy_formula(alloc, formula)?)),
    }
}

/// Copies of structs.
///
/// Errors: there was not memory enough.
pub fn copy_structs(alloc: Global, structs: &[Struct]) -> Result<Items<Struct>, AllocError>
    ensures { IfOk result (λ ss. map struct_view ss ≡ map struct_view structs.now) }
{
    let mut copies = Items::new(alloc);
    for structure in structs {
        copies.push(copy_struct(alloc, structure)?)?;
    }
    Ok(copies)
}

fn copy_struct(alloc: Global, structure: &Struct) -> Result<Struct, AllocError>
    ensures { IfOk result (λ s. struct_view s ≡ struct_view structure.now) }
{
    let name = Items::from_slice(alloc, structure.name.as_slice())?;
    let fields = copy_names(alloc, structure.fields.as_slice())?;
    Ok(Struct { name, fields })
}

/// Copies of predicates.
///
/// Errors: there was not memory enough.
pub fn copy_predicates(
    alloc: Global,
    predicates: &[Predicate],
) -> Result<Items<Predicate>, AllocError>
    ensures { IfOk result (λ qs. map predicate_view qs ≡ map predicate_view predicates.now) }
{
    let mut copies = Items::new(alloc);
    for predicate in predicates {
        copies.push(copy_predicate(alloc, predicate)?)?;
    }
    Ok(copies)
}

fn copy_predicate(alloc: Global, predicate: &Predicate) -> Result<Predicate, AllocError>
    ensures { IfOk result (λ q. predicate_view q ≡ predicate_view predicate.now) }
{
    let name = Items::from_slice(alloc, predicate.name.as_slice())?;
    let params = copy_names(alloc, predicate.params.as_slice())?;
    let body = copy_parts(alloc, predicate.body.as_slice())?;
    Ok(Predicate { name, params, body })
}

/// A copy of names with their shapes.
///
/// Errors: there was not memory enough.
pub fn copy_names(
    alloc: Global,
    names: &[(Items<u8>, Shape)],
) -> Result<Items<(Items<u8>, Shape)>, AllocError>
    ensures { IfOk result (λ ns. ns ≡ names.now) }
{
    let mut copies = Items::new(alloc);
    for named in names {
        let name = Items::from_slice(alloc, named.0.as_slice())?;
        copies.push((name, named.1))?;
    }
    Ok(copies)
}

/// A copy of texts.
///
/// Errors: there was not memory enough.
pub fn copy_texts(alloc: Global, texts: &[Items<u8>]) -> Result<Items<Items<u8>>, AllocError>
    ensures { IfOk result (λ ts. ts ≡ texts.now) }
{
    let mut copies = Items::new(alloc);
    for text in texts {
        copies.push(Items::from_slice(alloc, text.as_slice())?)?;
    }
    Ok(copies)
}
