//! The law on which each answer for a text rests.
ghost use Rattle.sat_text.specs.Formulas.{OneFormula};

/// A text says one formula at most. There is nothing to run: the contract is the law.
pub fn one_formula()
    ensures { OneFormula }
{}
