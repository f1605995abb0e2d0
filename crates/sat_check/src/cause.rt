//! Why a question stays open.
use crate::log::Log;

/// Why whoever searches for a refutation doesn't know an answer. It stands here, below those
/// who search, for the records that keep it.
#[derive(Drop)]
pub enum Cause {
    /// The search spent its conflicts. The log has as many entries as it was given, each of
    /// which follows and is new.
    Spent(Log),
    /// The question weighs so much, and is too large to be searched.
    TooLarge(u64),
}
