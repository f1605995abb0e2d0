//! Which functions of a program are plain, all at once.
#![tactic(auto)]

ghost use Rattle.std.specs.Prelude.{IfOk};
ghost use Rattle.gc0_tree.specs.Views.{program_view};
ghost use Rattle.plain_functions.specs.Marks.{AreMarks};

mod callees;
mod callers;
mod marks;
mod openness;

use callers::callers_of;
use gc0_tree::Program;
use marks::Marks;
use sqlite_items::Items;
use std::alloc::{AllocError, Global};

/// For each function by number, whether it is plain: no `?` stands in its clauses, invariants and
/// asserts, nor in those of any function that it reaches by calls. Takes the time of the program.
pub fn plain_functions(alloc: Global, program: &Program) -> Result<Items<bool>, AllocError>
    ensures { IfOk result (λ marks. AreMarks (program_view program.now) marks) }
{
    let callers = callers_of(alloc, program.functions.as_slice())?;
    let mut marks = Marks::new(alloc, program.functions.as_slice())?;
    while let Some(open) = marks.waiting.pop() {
        if let Some(those) = callers.get(open) {
            marks.mark_all(those.as_slice())?;
        }
    }
    Ok(marks.plain)
}
