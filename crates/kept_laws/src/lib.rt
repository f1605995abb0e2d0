//! The record that keeps all that is decided is right.
#![tactic(auto)]

ghost use Rattle.assumption_log.specs.AllKept.{all_kept_law};

/// In a stepped core the record that keeps all is right: its entries are entries of the core, and
/// at each visit of each run what is decided holds exactly where each kept part holds. It holds of
/// the definitions, so this function does nothing.
pub fn all_kept()
    ensures { all_kept_law }
{}
