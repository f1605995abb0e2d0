//! The instances in predicates that have no `acc` to their left.

#![tactic(auto, using(crate::specs::Least::least_both))]

ghost use Rattle.std.specs.Prelude.{◌≡◌, fold, map, not, ◌||◌, nat_lt};
ghost use Rattle.gc0_tree.specs.Tree.{Conjuncts};
ghost use Rattle.gc0_tree.specs.Views.{conjunct_view, conjuncts_view};
ghost use Rattle.c0_meaning.specs.Framing.{parts_unguarded};
ghost use Rattle.self_framing.specs.declared.fault.FrameFault.TheVariants as fault;
ghost use Rattle.self_framing.specs.FrameFaults.{earlier};

use crate::fault::{FrameFault, report_instance};
use gc0_tree::Conjunct;

// The instances of a conjunct, in the predicate of this number. Gives whether those that follow
// are guarded.
#[cycle(conjuncts)]
fn guard_part(part: &Conjunct, own: usize, guarded: bool, least: &mut Option<FrameFault>) -> bool
    ensures { (rest : Conjuncts) → fold earlier least.new (map fault.Unguarded (parts_unguarded own result rest)) ≡ fold earlier least.old (map fault.Unguarded (parts_unguarded own guarded (conjunct_view part.now rest))) }
{
    match part {
        Conjunct::Value(_) => guarded,
        Conjunct::Acc(_, _) => true,
        Conjunct::Instance(place, predicate, _) => {
            report_instance(least, guarded || (*predicate as usize) < own, *place);
            guarded
        }
        Conjunct::Choice(_, _, these, those) => {
            guard_parts(these.as_slice(), own, guarded, least);
            guard_parts(those.as_slice(), own, guarded, least);
            guarded
        }
    }
}

/// The instances of conjuncts of the predicate of this number. Where they are guarded, an `acc`
/// stands to their left.
#[cycle(conjuncts)]
pub fn guard_parts(parts: &[Conjunct], own: usize, guarded: bool, least: &mut Option<FrameFault>)
    ensures { least.new ≡ fold earlier least.old (map fault.Unguarded (parts_unguarded own guarded (conjuncts_view parts.now))) }
{
    let mut taken = guarded;
    for part in parts {
        taken = guard_part(part, own, taken, least);
    }
}
