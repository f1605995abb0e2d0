//! The laws on which what a search finds rests.
ghost use Rattle.search_base.specs.Laws.{NewEntriesAreFew, StuckIsSolved};

/// So many different entries that are new, empty ones and tautologies left out, there aren't.
/// There is nothing to run: the contract is the law.
pub fn new_entries_are_few()
    ensures { NewEntriesAreFew }
{}

/// Values that leave no clause a unit and none false satisfy them all. There is nothing to run:
/// the contract is the law.
pub fn stuck_is_solved()
    ensures { StuckIsSolved }
{}
