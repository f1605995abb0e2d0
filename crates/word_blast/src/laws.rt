//! The law on which each use of a query's clauses rests.
ghost use Rattle.word_blast.specs.Bounds.{CircuitsAreBelow};

/// The clauses of a query speak of the variables below the query's number alone. There is
/// nothing to run: the contract is the law.
pub fn circuits_are_below()
    ensures { CircuitsAreBelow }
{}
