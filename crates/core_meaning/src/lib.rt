//! The meaning of the core of a program.
#![tactic(auto)]

ghost use Rattle.std.specs.Prelude.{◌≡◌};
ghost use Rattle.core_meaning.specs.Stepped.{choice_law};
ghost use Rattle.core_meaning.specs.CoreExamples.{counting_million, counting_14, counting_13, counting_visits, adding_18, adding_17, touching_stops, writing_prints, following_faults, getting_returns, getting_visits, pushing_returns, pushing_visits, unfolding_returns, unfolding_visits, starting_visits, making_visits, making_sites, choosing_returns, choosing_visits, dividing_faults, reading_faults, reading_returns, counting_agrees, halving_agrees, counting_stepped, pushing_stepped, getting_decided, unfolding_decided, starting_decided, making_decided, choosing_decided, dividing_decided};

/// In a stepped core the decision of each choice is found. It holds of the definitions, so this
/// function does nothing.
pub fn asked_choices()
    ensures { choice_law }
{}

/// Worked cores: what programs in core form do, what they decide and with which outcomes. They
/// hold of the definition of the meaning itself, so this function does nothing.
pub fn worked_cores()
    ensures counting_million { counting_million }
    ensures counting_14 { counting_14 }
    ensures counting_13 { counting_13 }
    ensures counting_visits { counting_visits }
    ensures adding_18 { adding_18 }
    ensures adding_17 { adding_17 }
    ensures touching_stops { touching_stops }
    ensures writing_prints { writing_prints }
    ensures following_faults { following_faults }
    ensures getting_returns { getting_returns }
    ensures getting_visits { getting_visits }
    ensures pushing_returns { pushing_returns }
    ensures pushing_visits { pushing_visits }
    ensures unfolding_returns { unfolding_returns }
    ensures unfolding_visits { unfolding_visits }
    ensures starting_visits { starting_visits }
    ensures making_visits { making_visits }
    ensures making_sites { making_sites }
    ensures choosing_returns { choosing_returns }
    ensures choosing_visits { choosing_visits }
    ensures dividing_faults { dividing_faults }
    ensures reading_faults { reading_faults }
    ensures reading_returns { reading_returns }
    ensures counting_agrees { counting_agrees }
    ensures halving_agrees { halving_agrees }
    ensures counting_stepped { counting_stepped }
    ensures pushing_stepped { pushing_stepped }
    ensures getting_decided { getting_decided }
    ensures unfolding_decided { unfolding_decided }
    ensures starting_decided { starting_decided }
    ensures making_decided { making_decided }
    ensures choosing_decided { choosing_decided }
    ensures dividing_decided { dividing_decided }
{}
