//! Which functions keep track of what they own, in walks over the functions until none gets a new
//! mark.

ghost use Rattle.std.specs.Prelude.{◌≡◌, ◌&&◌, ◌||◌, not, length, map, slice_get, IfOk};
ghost use Rattle.core_tree.specs.CoreViews.{core_view, core_function_view, core_stmt_view, code_view};
ghost use Rattle.assumption_log.specs.Records.{kept_view};
ghost use Rattle.check_placement.specs.Tracked.{marked, stmt_reaches, code_reaches, AreFirst, Passes, AreTracked};

use assumption_log::Kept;
use core_tree::{Core, CoreFunction, CoreStmt};
use sqlite_items::Items;
use std::alloc::{AllocError, Global};

/// For each function by number, whether it isn't plain or has an entry, or reaches one that is so.
/// Walks over the core until a walk brings nothing new: no more often than calls are nested, and
/// once or twice where each function stands behind those that it calls.
///
/// Errors: there was not memory enough.
pub fn tracked_functions(
    alloc: Global,
    core: &Core,
    entries: &[Kept],
) -> Result<Items<bool>, AllocError>
    ensures { IfOk result (AreTracked (core_view core.now) (map kept_view entries.now)) }
{
    let mut marks = first_marks(alloc, core, entries)?;
    let mut more = true;
    while more {
        more = pass(core, &mut marks);
    }
    Ok(marks)
}

// A mark for each function that isn't plain or has an entry.
fn first_marks(alloc: Global, core: &Core, entries: &[Kept]) -> Result<Items<bool>, AllocError>
    ensures { IfOk result (AreFirst (core_view core.now) (map kept_view entries.now)) }
{
    let mut marks = Items::new(alloc);
    for function in core.functions.as_slice() {
        marks.push(!function.plain)?;
    }
    for entry in entries {
        let index = entry.site.function as usize;
        if index < marks.len() {
            marks.set(index, true);
        }
    }
    Ok(marks)
}

// A mark for each function that calls one with a mark, in one walk; whether there are new ones.
fn pass(core: &Core, marks: &mut Items<bool>) -> bool
    requires { length marks.old ≡ length core.now.functions }
    ensures { Passes (core_view core.now) marks.old result marks.new }
{
    let mut changed = false;
    for (number, function) in core.functions.as_slice().iter().enumerate() {
        if gets_mark(marks.as_slice(), number, function) {
            marks.set(number, true);
            changed = true;
        }
    }
    changed
}

// Whether a function has no mark and calls one with a mark.
fn gets_mark(marks: &[bool], number: usize, function: &CoreFunction) -> bool
    ensures { result ≡ (not (marked marks.now number) && code_reaches marks.now (core_function_view function.now).body) }
{
    !is_marked(marks, number) && code_reaches(marks, function.body.as_slice())
}

fn is_marked(marks: &[bool], function: usize) -> bool
    ensures { result ≡ marked marks.now function }
{
    match marks.get(function) {
        None => false,
        Some(mark) => *mark,
    }
}

#[cycle(reaching)]
fn code_reaches(marks: &[bool], code: &[CoreStmt]) -> bool
    ensures { result ≡ code_reaches marks.now (code_view code.now) }
{
    for s in code {
        if stmt_reaches(marks, s) {
            return true;
        }
    }
    false
}

#[cycle(reaching)]
fn stmt_reaches(marks: &[bool], s: &CoreStmt) -> bool
    ensures { result ≡ stmt_reaches marks.now (core_stmt_view s.now) }
{
    match s {
        CoreStmt::Call { function, .. } => is_marked(marks, *function as usize),
        CoreStmt::If { yes, no, .. } => {
            code_reaches(marks, yes.as_slice()) || code_reaches(marks, no.as_slice())
        }
        CoreStmt::Loop { test, body, .. } => {
            code_reaches(marks, test.as_slice()) || code_reaches(marks, body.as_slice())
        }
        _ => false,
    }
}
