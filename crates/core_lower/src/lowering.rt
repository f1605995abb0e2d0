//! A whole program.

ghost use Rattle.std.specs.Prelude.{◌≡◌, ◌<◌, ◌^◌, ◌||◌, ℕ, List, None, Some, Err, All, true, false, not, is_some, length, map, IfOk};
ghost use Rattle.gc0_tree.specs.Fits.{Fits};
ghost use Rattle.gc0_tree.specs.Views.{program_view};
ghost use Rattle.core_tree.specs.CoreViews.{core_view, core_function_view};
ghost use Rattle.formula_choices.specs.ChoicePlaces.{AreChoices};
ghost use Rattle.lowering_laws.specs.Lowering.{lowered_from};
ghost use Rattle.program_limits.specs.declared.passed.Limit.{Limit as Limit'};
ghost use Rattle.c0_meaning.specs.Running.{meaning, sites};
ghost use Rattle.core_meaning.specs.CoreRunning.{core_meaning, core_sites};
ghost use Rattle.program_limits.specs.Counts.{limit_passed};
ghost use Rattle.lowering_laws.specs.Ends.{AllEnd};
ghost use Rattle.core_lower.specs.Lowered.{IsLowered, mark_in};
ghost use Rattle.core_lower.specs.Wholes.{beside_of};
ghost use Rattle.core_lower.specs.Ready.{IsReady};
ghost use Rattle.core_lower.specs.Separate.{all_apart};
ghost use Rattle.core_meaning.specs.Stepped.{IsStepped};
ghost use Rattle.gc0_base.specs.declared.place.Place.{Place as Place'};
ghost use Rattle.core_lower.specs.declared.fault.LowerFault.TheVariants as fault;

use crate::fault::LowerFault;
use crate::functions::{Known, lower_function};
use core_tree::{Core, CoreFunction};
use formula_choices::ProgramChoices;
use gc0_base::Place;
use gc0_tree::Program;
use lowering_laws::{lowered_is_stepped, lowering_means};
use plain_functions::plain_functions;
use program_limits::limit_passed;
use self_framing::count_paths;
use sqlite_items::Items;
use std::alloc::{AllocError, Global};
use tree_copies::{copy_predicates, copy_structs, copy_texts};

// Whether a function has the mark of plain functions.
fn is_marked(marks: &[bool], number: u32) -> bool
    ensures { result ≡ mark_in marks.now number }
{
    match marks.get(number as usize) {
        None => false,
        Some(mark) => *mark,
    }
}

// The functions of a program, in their order, and the first place where two sites are one.
#[derive(Drop)]
struct LoweredFunctions {
    list: Items<CoreFunction>,
    shared: Option<Place>,
}

// The first of two places, where there is one.
fn first_place(first: Option<Place>, second: Option<Place>) -> Option<Place>
    ensures { is_some result ≡ (is_some first || is_some second) }
{
    match first {
        None => second,
        Some(place) => Some(place),
    }
}

// The functions of a program, in their order.
fn lower_functions(
    alloc: Global,
    program: &Program,
    choices: &ProgramChoices,
    marks: &[bool],
) -> Result<LoweredFunctions, AllocError>
    requires { AreChoices choices.now (program_view program.now) }
    ensures functions { IfOk result (λ x. map core_function_view x.list ≡ lowered_from (beside_of (program_view program.now) marks.now) (program_view program.now) 0 (program_view program.now).functions) }
    ensures few { IfOk result (λ x. All (λ f. length f.decisions < 2 ^ 32) (map core_function_view x.list)) }
    ensures shared { IfOk result (λ x. is_some x.shared ≡ not (all_apart 0 (program_view program.now).functions)) }
{
    let mut list: Items<CoreFunction> = Items::new(alloc);
    let mut shared: Option<Place> = None;
    let mut number: u32 = 0;
    for function in program.functions.as_slice() {
        let known = Known {
            number,
            plain: is_marked(marks, number),
            paths: count_paths(program, number),
        };
        let lowered = lower_function(alloc, program, choices, function, known)?;
        list.push(lowered.core)?;
        shared = first_place(shared, lowered.shared);
        if number == u32::MAX {
            return Err(AllocError);
        }
        number += 1;
    }
    Ok(LoweredFunctions { list, shared })
}

// A core, and a place where two of its sites are one.
#[derive(Drop)]
struct Whole {
    core: Core,
    shared: Option<Place>,
}

// The core of a program, whatever its size.
fn lower_whole(alloc: Global, program: &Program) -> Result<Whole, AllocError>
    ensures core { IfOk result (λ x. IsLowered (program_view program.now) (core_view x.core)) }
    ensures few { IfOk result (λ x. All (λ f. length f.decisions < 2 ^ 32) (core_view x.core).functions) }
    ensures shared { IfOk result (λ x. is_some x.shared ≡ not (all_apart 0 (program_view program.now).functions)) }
{
    let choices = ProgramChoices::new(alloc, program)?;
    let marks = plain_functions(alloc, program)?;
    let structs = copy_structs(alloc, program.structs.as_slice())?;
    let predicates = copy_predicates(alloc, program.predicates.as_slice())?;
    let texts = copy_texts(alloc, program.texts.as_slice())?;
    let functions = lower_functions(alloc, program, &choices, marks.as_slice())?;
    let core = Core {
        structs,
        predicates,
        functions: functions.list,
        main: program.main,
        texts,
    };
    Ok(Whole {
        core,
        shared: functions.shared,
    })
}

/// The core of a program: its expressions flattened, with each temporary, step, site and decision
/// written out. It does what the program does, and the core of a program that was resolved, framed
/// and guarded is stepped.
///
/// # Errors
///
/// `Limit` exactly where the program passes a limit of counts, with the first one. `Shared` where
/// two tokens of one kind stand at one place. `Memory` where there was not memory enough, or a
/// number of a temporary or a decision would be 2^32 or more.
pub fn lower(alloc: Global, program: &Program) -> Result<Core, LowerFault>
    ensures core { IfOk result (λ c. IsLowered (program_view program.now) (core_view c)) }
    ensures meaning { IfOk result (λ c. Fits (program_view program.now) → AllEnd (program_view program.now) → (input : List ℕ) (n : ℕ) → core_meaning (core_view c) input n ≡ meaning (program_view program.now) input n) }
    ensures sites { IfOk result (λ c. Fits (program_view program.now) → AllEnd (program_view program.now) → (input : List ℕ) (n : ℕ) → core_sites (core_view c) input n ≡ sites (program_view program.now) input n) }
    ensures stepped { IfOk result (λ c. IsReady (program_view program.now) → IsStepped (core_view c)) }
    ensures within { IfOk result (λ c. limit_passed (program_view program.now) ≡ None) }
    ensures apart { IfOk result (λ c. all_apart 0 (program_view program.now).functions ≡ true) }
    ensures limit { (l : Limit') → result ≡ Err (fault.Limit l) → limit_passed (program_view program.now) ≡ Some l }
    ensures shared { (at : Place') → result ≡ Err (fault.Shared at) → all_apart 0 (program_view program.now).functions ≡ false }
{
    lowering_means();
    lowered_is_stepped();
    if let Some(limit) = limit_passed(program) {
        return Err(LowerFault::Limit(limit));
    }
    let whole = lower_whole(alloc, program)?;
    if let Some(place) = whole.shared {
        return Err(LowerFault::Shared(place));
    }
    Ok(whole.core)
}
