//! Who calls each function.

ghost use Rattle.std.specs.Prelude.{[], ◌∷◌, map, IfOk, OnOk};
ghost use Rattle.gc0_tree.specs.Views.{function_view};
ghost use Rattle.plain_functions.specs.Callers.{AddsCaller, AreCallers};

use super::callees::add_stmts;
use gc0_tree::Function;
use sqlite_items::Items;
use std::alloc::{AllocError, Global};

/// For each function by number, those that call it, each as often as it does.
///
/// Errors: there was not memory enough.
pub fn callers_of(alloc: Global, functions: &[Function]) -> Result<Vec<Items<usize>>, AllocError>
    ensures { IfOk result (λ callers. AreCallers (map function_view functions.now) callers.items) }
{
    let mut callers = Vec::new(alloc);
    for _function in functions {
        callers.push(Items::new(alloc))?;
    }
    for (number, function) in functions.iter().enumerate() {
        let mut callees = Items::new(alloc);
        add_stmts(&mut callees, function.body.as_slice())?;
        add_caller(&mut callers, number, callees.as_slice())?;
    }
    Ok(callers)
}

fn add_caller(
    callers: &mut Vec<Items<usize>>,
    caller: usize,
    callees: &[u32],
) -> Result<(), AllocError>
    ensures { OnOk result (AddsCaller callers.old.items caller callees.now callers.new.items) }
{
    for callee in callees {
        add_call(callers, caller, *callee)?;
    }
    Ok(())
}

// A callee's number past the functions is passed over.
fn add_call(callers: &mut Vec<Items<usize>>, caller: usize, callee: u32) -> Result<(), AllocError>
    ensures { OnOk result (AddsCaller callers.old.items caller (callee ∷ []) callers.new.items) }
{
    let index = callee as usize;
    if index < callers.len() {
        callers[index].push(caller)?;
    }
    Ok(())
}
