//! Copies of conjuncts.

ghost use Rattle.std.specs.Prelude.{◌≡◌, map, IfOk, OnOk};
ghost use Rattle.gc0_tree.specs.Tree.{Conjuncts};
ghost use Rattle.gc0_tree.specs.Views.{conjunct_view, conjuncts_view, in_front};

use crate::expressions::{copy_expr, copy_exprs};
use gc0_tree::Conjunct;
use sqlite_items::Items;
use std::alloc::{AllocError, Global};

/// Copies of conjuncts.
///
/// Errors: there was not memory enough.
#[cycle(copies)]
pub fn copy_parts(alloc: Global, parts: &[Conjunct]) -> Result<Items<Conjunct>, AllocError>
    ensures { IfOk result (λ copies. conjuncts_view copies ≡ conjuncts_view parts.now) }
{
    let mut copies = Items::new(alloc);
    for part in parts {
        push_copy(alloc, part, &mut copies)?;
    }
    Ok(copies)
}

// A copy of a conjunct behind others.
#[cycle(copies)]
fn push_copy(alloc: Global, part: &Conjunct, copies: &mut Items<Conjunct>) -> Result<(), AllocError>
    ensures { OnOk result ((rest : Conjuncts) → in_front (map conjunct_view copies.new) rest ≡ in_front (map conjunct_view copies.old) (conjunct_view part.now rest)) }
{
    match part {
        Conjunct::Value(e) => {
            let copy = copy_expr(alloc, e)?;
            push(Conjunct::Value(copy.into_inner()), copies)
        }
        Conjunct::Acc(path, field) => {
            let copy = copy_expr(alloc, path)?;
            push(Conjunct::Acc(copy.into_inner(), *field), copies)
        }
        Conjunct::Instance(place, predicate, arguments) => {
            let arguments = copy_exprs(alloc, arguments.as_slice())?;
            push(Conjunct::Instance(*place, *predicate, arguments), copies)
        }
        Conjunct::Choice(place, test, these, those) => {
            let test = copy_expr(alloc, test)?;
            let these = copy_parts(alloc, these.as_slice())?;
            let those = copy_parts(alloc, those.as_slice())?;
            push(
                Conjunct::Choice(*place, test.into_inner(), these, those),
                copies,
            )
        }
    }
}

// A conjunct behind others.
fn push(part: Conjunct, parts: &mut Items<Conjunct>) -> Result<(), AllocError>
    ensures { OnOk result ((rest : Conjuncts) → in_front (map conjunct_view parts.new) rest ≡ in_front (map conjunct_view parts.old) (conjunct_view part rest)) }
{
    parts.push(part)?;
    Ok(())
}
