//! What a decider answers.

use sat_check::Cause;
use word_terms::Valuation;

/// Whether a claim follows from facts.
#[derive(Drop)]
pub enum Answer {
    /// Each valuation that makes all facts true makes the claim true.
    Yes,
    /// This valuation makes all facts true and the claim false.
    No(Valuation),
    /// The decider doesn't know. The cause is `Spent` with as many entries as its searches are
    /// given conflicts, or `TooLarge` with a weight above `gc0_base::Limits::WEIGHT`.
    Undecided(Cause),
}
