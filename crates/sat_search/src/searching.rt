//! The search.
ghost use Rattle.std.specs.Prelude.{◌≡◌, ℕ, ◌<◌, ◌^◌, IfOk};
ghost use Rattle.sat_check.specs.Clauses.{ClausesAreBelow};
ghost use Rattle.search_base.specs.Searches.{IfAssignment, IfRefuted, IfSpent, IsSolution, IsRefutationWithin, IsSpent, IsRefutedByPropagation};

use crate::running::Ending;
use crate::solver::Solver;
use sat_check::{Clause, Log};
use search_base::{Found, new_entries_are_few, stuck_is_solved, values_by};
use std::alloc::{AllocError, Global};

/// Searches for values of `variables` variables under which each clause is true, or for a log that
/// `check` finds `Refuted`, and learns at most `conflicts` entries for it.
///
/// Where there are more clauses and entries than a hint can name, 2^32, it answers want of memory.
pub fn search(
    alloc: Global,
    variables: u32,
    clauses: &[Clause],
    conflicts: u64,
) -> Result<Found, AllocError>
    requires { ClausesAreBelow variables clauses.now }

    ensures assignment { IfOk result (λ found. IfAssignment found (IsSolution variables clauses.now)) }
    ensures refuted { IfOk result (λ found. IfRefuted found (IsRefutationWithin variables clauses.now conflicts)) }
    ensures spent { IfOk result (λ found. IfSpent found (IsSpent variables clauses.now conflicts)) }

    // So many different clauses, empty ones and tautologies left out, there aren't.
    ensures never_spent { IfOk result (λ found. IfSpent found (λ _. conflicts < 3 ^ variables)) }

    // What propagation alone refutes is found with the first entry.
    ensures never_spent_by_propagation { IfOk result (λ found. IfSpent found (λ _. 0 < conflicts → ¬ IsRefutedByPropagation clauses.now)) }
{
    stuck_is_solved();
    new_entries_are_few();
    if clauses.len() > u32::MAX as usize {
        return Err(AllocError);
    }
    let (mut solver, conflict) = Solver::start(alloc, variables, clauses)?;
    match solver.run(alloc, clauses, conflicts, conflict)? {
        Ending::Satisfied => {
            let values = values_by(alloc, solver.placed.trail.slots.as_slice())?;
            Ok(Found::Assignment(values))
        }
        Ending::Refuted => Ok(Found::Refuted(log_of(solver))),
        Ending::Spent => Ok(Found::Spent(log_of(solver))),
    }
}

fn log_of(solver: Solver) -> Log
    ensures { result.entries ≡ solver.entries }
{
    Log {
        entries: solver.entries,
    }
}
