//! The law on which each `Refuted` rests.
ghost use Rattle.sat_check.specs.Logs.{RefutationIsSound};

/// Clauses that have a refutation are satisfied by no assignment. There is nothing to run: the
/// contract is the law.
pub fn refutation_is_sound()
    ensures { RefutationIsSound }
{}
