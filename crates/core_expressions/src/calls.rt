//! The code of calls behind that of their arguments.

ghost use Rattle.std.specs.Prelude.{◌≡◌, ◌++◌, [], Some, IfOk, OnOk, slice_get};
ghost use Rattle.gc0_base.specs.declared.site.Kind.TheVariants as kind;
ghost use Rattle.gc0_tree.specs.Fits.{library_gives};
ghost use Rattle.gc0_tree.specs.Sites.{reads_input};
ghost use Rattle.gc0_tree.specs.declared.Shape.{Shape as Shape'};
ghost use Rattle.core_tree.specs.CoreTree.{no_code, do_step, do_call, do_library, code_and};
ghost use Rattle.lowering_laws.specs.Counts.{Counts, or_int, result_of, with_result, with_constant, decided, call_choices};
ghost use Rattle.lowering_laws.specs.Trees.{one, held, temp_if, site_if, local_in, argument, argument_code};
ghost use Rattle.lowering_laws.specs.Tables.{placed_about, placed_if, call_decisions};
ghost use Rattle.core_expressions.specs.Writing.{IsWithin, program_of, places_of, target_of, StandsFor, IsWritten, IsOperand, temp_in};

use crate::operand::Operand;
use crate::parts::{push_set, push_step, zero};
use crate::shapes::reads_input;
use crate::within::Within;
use crate::written::Written;
use core_tables::PlacedSite;
use core_tree::{CoreStmt, Phase, Simple};
use gc0_base::{Kind, Place, Site};
use gc0_tree::{LibraryCall, Shape};
use sqlite_items::Items;
use std::alloc::AllocError;
use temp_counts::{library_gives, or_int, result_of};

// The local of a value that isn't constant.
fn local_in(value: Simple) -> u32
    ensures { result ≡ local_in value }
{
    match value {
        Simple::Const(_) => 0,
        Simple::Local(i) => i,
    }
}

// An argument of a call is in a local: a constant has a temporary for it.
pub(crate) fn finish_argument(
    within: &Within<'_>,
    out: &mut Written,
    constant: bool,
    x: Operand,
) -> Result<u32, AllocError>
    requires { IsWithin within.now }
    ensures local { (c : Counts) → StandsFor out.old c → IfOk result (λ i. i ≡ argument constant (temp_in within.now x.shape c) x.value) }
    ensures written { (c : Counts) → StandsFor out.old c → OnOk result (IsWritten out.old out.new (with_constant constant x.shape c) (argument_code constant (temp_in within.now x.shape c) x.value) [] []) }
{
    if constant {
        let to = out.take(within, x.shape)?;
        push_set(out, to, x.value)?;
        return Ok(to);
    }
    Ok(local_in(x.value))
}

// A temporary for what a call gives, where it gives something.
fn take_result(
    within: &Within<'_>,
    out: &mut Written,
    given: Option<Shape>,
) -> Result<Option<u32>, AllocError>
    requires { IsWithin within.now }
    ensures number { (c : Counts) → StandsFor out.old c → IfOk result (λ to. to ≡ temp_if (target_of within.now) given c) }
    ensures written { (c : Counts) → StandsFor out.old c → OnOk result (IsWritten out.old out.new (with_result given c) no_code [] []) }
{
    match given {
        None => Ok(None),
        Some(shape) => {
            let to = out.take(within, shape)?;
            Ok(Some(to))
        }
    }
}

// The word of a temporary, where there is one.
fn held(to: Option<u32>) -> Simple
    ensures { result ≡ held to }
{
    match to {
        None => zero(),
        Some(i) => Simple::Local(i),
    }
}

// Takes the decisions of a call: it consumes the callee's `requires`, and produces its `ensures`.
fn decide_call(
    within: &Within<'_>,
    out: &mut Written,
    site: Site,
    function: u32,
) -> Result<(), AllocError>
    requires { IsWithin within.now }
    ensures { (c : Counts) → StandsFor out.old c → OnOk result (IsWritten out.old out.new (decided (call_choices (slice_get (program_of within.now).functions function)) c) no_code (call_decisions site (slice_get (program_of within.now).functions function)) []) }
{
    let before = within.choices.before.get(function as usize);
    let after = within.choices.after.get(function as usize);
    match (before, after) {
        (Some(before), Some(after)) => {
            out.decide(site, Phase::Consume, before.as_slice())?;
            out.decide(site, Phase::Produce, after.as_slice())
        }
        _ => Ok(()),
    }
}

// The decisions, the site and the temporary of a call. Gives the temporary.
fn begin_call(
    within: &Within<'_>,
    out: &mut Written,
    place: Place,
    function: u32,
) -> Result<Option<u32>, AllocError>
    requires { IsWithin within.now }
    ensures number { (c : Counts) → StandsFor out.old c → IfOk result (λ to. to ≡ temp_if (target_of within.now) (result_of (slice_get (program_of within.now).functions function)) c) }
    ensures written { (c : Counts) → StandsFor out.old c → OnOk result (IsWritten out.old out.new (with_result (result_of (slice_get (program_of within.now).functions function)) (decided (call_choices (slice_get (program_of within.now).functions function)) c)) no_code (call_decisions (places_of within.now kind.Requires place) (slice_get (program_of within.now).functions function)) (placed_about (places_of within.now kind.Requires place) function place)) }
{
    let site = within.site(Kind::Requires, place);
    let to = take_result(within, out, result_of(within.program, function))?;
    decide_call(within, out, site, function)?;
    out.place(PlacedSite {
        site,
        about: Some(function),
        place,
    })?;
    Ok(to)
}

// A step, and a call.
fn push_call(
    out: &mut Written,
    to: Option<u32>,
    function: u32,
    arguments: Items<u32>,
    site: Site,
) -> Result<(), AllocError>
    ensures { (c : Counts) → StandsFor out.old c → OnOk result (IsWritten out.old out.new c (code_and do_step (one (do_call to function arguments site))) [] []) }
{
    push_step(out)?;
    out.push(CoreStmt::Call {
        to,
        function,
        arguments,
        site,
    })
}

// A call behind its arguments, which are in these locals.
pub(crate) fn finish_call(
    within: &Within<'_>,
    out: &mut Written,
    place: Place,
    function: u32,
    arguments: Items<u32>,
) -> Result<Operand, AllocError>
    requires { IsWithin within.now }
    ensures { (c : Counts) → StandsFor out.old c → IfOk result (λ x. IsOperand out.old out.new x (held (temp_if (target_of within.now) (result_of (slice_get (program_of within.now).functions function)) c)) (or_int (result_of (slice_get (program_of within.now).functions function))) (with_result (result_of (slice_get (program_of within.now).functions function)) (decided (call_choices (slice_get (program_of within.now).functions function)) c)) (code_and do_step (one (do_call (temp_if (target_of within.now) (result_of (slice_get (program_of within.now).functions function)) c) function arguments (places_of within.now kind.Requires place)))) (call_decisions (places_of within.now kind.Requires place) (slice_get (program_of within.now).functions function)) (placed_about (places_of within.now kind.Requires place) function place)) }
{
    let to = begin_call(within, out, place, function)?;
    let site = within.site(Kind::Requires, place);
    push_call(out, to, function, arguments, site)?;
    Ok(Operand {
        value: held(to),
        shape: or_int(result_of(within.program, function)),
    })
}

// The site of a library call that may fault, and its note.
fn place_library(
    out: &mut Written,
    call: LibraryCall,
    site: Site,
    place: Place,
) -> Result<Option<Site>, AllocError>
    ensures site { IfOk result (λ x. x ≡ site_if (reads_input call) site) }
    ensures written { (c : Counts) → StandsFor out.old c → OnOk result (IsWritten out.old out.new c no_code [] (placed_if (reads_input call) site place)) }
{
    if reads_input(call) {
        out.place(PlacedSite {
            site,
            about: None,
            place,
        })?;
        return Ok(Some(site));
    }
    Ok(None)
}

// A step, and a library call.
fn push_library(
    out: &mut Written,
    to: Option<u32>,
    call: LibraryCall,
    argument: Option<Simple>,
    text: Option<u32>,
    site: Option<Site>,
) -> Result<(), AllocError>
    ensures { (c : Counts) → StandsFor out.old c → OnOk result (IsWritten out.old out.new c (code_and do_step (one (do_library to call argument text site))) [] []) }
{
    push_step(out)?;
    out.push(CoreStmt::Library {
        to,
        call,
        argument,
        text,
        site,
    })
}

// A library call behind its argument.
pub(crate) fn finish_library(
    within: &Within<'_>,
    out: &mut Written,
    place: Place,
    call: LibraryCall,
    value: Option<Simple>,
    text: Option<u32>,
) -> Result<Operand, AllocError>
    requires { IsWithin within.now }
    ensures { (c : Counts) → StandsFor out.old c → IfOk result (λ x. IsOperand out.old out.new x (held (temp_if (target_of within.now) (library_gives call) c)) (or_int (library_gives call)) (with_result (library_gives call) c) (code_and do_step (one (do_library (temp_if (target_of within.now) (library_gives call) c) call value text (site_if (reads_input call) (places_of within.now kind.Trap place))))) [] (placed_if (reads_input call) (places_of within.now kind.Trap place) place)) }
{
    let to = take_result(within, out, library_gives(call))?;
    let site = place_library(out, call, within.site(Kind::Trap, place), place)?;
    push_library(out, to, call, value, text, site)?;
    Ok(Operand {
        value: held(to),
        shape: or_int(library_gives(call)),
    })
}
