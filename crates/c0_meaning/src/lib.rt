//! The meaning of a program.
#![tactic(auto)]

ghost use Rattle.std.specs.Prelude.{◌≡◌};
ghost use Rattle.c0_meaning.specs.Examples.{forever_0, forever_3, forever_5, counting_million, counting_14, counting_13, halving_stops, asserting_stops, asserting_sites, wrapping_prints};

mod plain;

use gc0_tree::{Formula, Program};
pub use plain::is_plain;

/// Whether a formula has a `?`.
pub fn is_imprecise(_program: &Program, formula: &Formula) -> bool
    ensures { result ≡ formula.now.imprecise }
{
    formula.imprecise
}

/// Worked runs: what programs with loops, calls, contracts and few steps do. They hold of the
/// definition of the meaning itself, so this function does nothing.
pub fn worked_runs()
    ensures no_steps { forever_0 }
    ensures three_steps { forever_3 }
    ensures five_steps { forever_5 }
    ensures invariant { counting_million }
    ensures just_enough_steps { counting_14 }
    ensures one_step_less { counting_13 }
    ensures precondition { halving_stops }
    ensures assertion { asserting_stops }
    ensures decided { asserting_sites }
    ensures printed { wrapping_prints }
{}
