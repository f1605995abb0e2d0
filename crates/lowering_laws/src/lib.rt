//! The lowering of a program to its core.
#![tactic(auto)]

ghost use Rattle.lowering_laws.specs.Laws.{meaning_law, sites_law};
ghost use Rattle.lowering_laws.specs.SteppedLaws.{stepped_law};
ghost use Rattle.lowering_laws.specs.Examples.{counting_million, counting_14, counting_13, halving_stops, halving_sites, choosing_returns, choosing_numbers, choosing_main_numbers, choosing_origins, choosing_row};

/// The core of a program means what the program means: with each input and each number of steps
/// both give the same output and end alike, and they decide the same sites. It holds of the
/// definitions, so this function does nothing.
pub fn lowering_means()
    ensures meaning { meaning_law }
    ensures sites { sites_law }
{}

/// The core of a program that was resolved, framed and guarded is stepped. It holds of the
/// definitions, so this function does nothing.
pub fn lowered_is_stepped()
    ensures { stepped_law }
{}

/// Worked programs: their cores do what the programs do, and each branch and choice has its own
/// decision. They hold of the definitions, so this function does nothing.
pub fn worked_lowerings()
    ensures counting_million { counting_million }
    ensures counting_14 { counting_14 }
    ensures counting_13 { counting_13 }
    ensures halving_stops { halving_stops }
    ensures halving_sites { halving_sites }
    ensures choosing_returns { choosing_returns }
    ensures choosing_numbers { choosing_numbers }
    ensures choosing_main_numbers { choosing_main_numbers }
    ensures choosing_origins { choosing_origins }
    ensures choosing_row { choosing_row }
{}
