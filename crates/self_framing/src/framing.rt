//! Framing and guards.

#![tactic(auto, using(crate::specs::Least::least_both))]

ghost use Rattle.std.specs.Prelude.{◌≡◌, [], Some, IfOk, IfErr, fold, map, flat_map};
ghost use Rattle.gc0_tree.specs.Views.{predicate_view, function_view, program_view};
ghost use Rattle.c0_meaning.specs.Framing.{predicate_unframed, function_unframed, predicates_unguarded};
ghost use Rattle.self_framing.specs.declared.fault.FrameFault.TheVariants as fault;
ghost use Rattle.self_framing.specs.FrameFaults.{earlier, frame_faults, first_fault};

use crate::FrameFault;
use crate::guards::guard_parts;
use crate::reads::{read_body, read_function};
use gc0_tree::{Function, Predicate, Program};

fn read_predicates(predicates: &[Predicate], least: &mut Option<FrameFault>)
    ensures { least.new ≡ fold earlier least.old (map fault.NotFramed (flat_map predicate_unframed (map predicate_view predicates.now))) }
{
    for predicate in predicates {
        read_body(predicate.body.as_slice(), least);
    }
}

fn read_functions(functions: &[Function], least: &mut Option<FrameFault>)
    ensures { least.new ≡ fold earlier least.old (map fault.NotFramed (flat_map function_unframed (map function_view functions.now))) }
{
    for function in functions {
        read_function(function, least);
    }
}

fn guard_predicates(predicates: &[Predicate], least: &mut Option<FrameFault>)
    ensures { least.new ≡ fold earlier least.old (map fault.Unguarded (predicates_unguarded 0 (map predicate_view predicates.now))) }
{
    let mut number = 0;
    for predicate in predicates {
        guard_parts(predicate.body.as_slice(), number, false, least);
        number += 1;
    }
}

/// Whether each read of a precise formula has its permission to its left, and each instance in a
/// predicate its guard. Takes no memory.
///
/// # Errors
///
/// The broken rule that stands first in the text.
pub fn check_framing(program: &Program) -> Result<(), FrameFault>
    ensures kept { IfOk result (λ _. frame_faults (program_view program.now) ≡ []) }
    ensures fault { IfErr result (λ f. first_fault (frame_faults (program_view program.now)) ≡ Some f) }
{
    let mut least = None;
    read_predicates(program.predicates.as_slice(), &mut least);
    read_functions(program.functions.as_slice(), &mut least);
    guard_predicates(program.predicates.as_slice(), &mut least);
    match least {
        None => Ok(()),
        Some(found) => Err(found),
    }
}
