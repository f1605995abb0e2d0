//! What sites and decisions are found again by.

ghost use Rattle.std.specs.Prelude.{◌≡◌};
ghost use Rattle.check_placement.specs.FoundBy.{site_key, kind_key, decision_key};

use gc0_base::{Decision, Kind, Site};
use std::hash::{Hash, Hasher};

/// What a site is found again by.
#[derive(Clone, Copy, PartialEq, Eq, Hash)]
pub struct SiteKey {
    function: u32,
    kind: u8,
    ordinal: u32,
}

/// What a decision is found again by.
#[derive(Clone, Copy, PartialEq, Eq, Hash)]
pub struct DecisionKey {
    function: u32,
    number: u32,
}

/// The key of a site. Sites have one key exactly where they are the same.
pub fn site_key(site: Site) -> SiteKey
    ensures { result ≡ site_key site }
{
    SiteKey {
        function: site.function,
        kind: kind_key(site.kind),
        ordinal: site.ordinal,
    }
}

/// The key of a decision. Decisions have one key exactly where they are the same.
pub fn decision_key(decision: Decision) -> DecisionKey
    ensures { result ≡ decision_key decision }
{
    DecisionKey {
        function: decision.function,
        number: decision.number,
    }
}

// A kind as a number, which a key can hold and hash.
fn kind_key(kind: Kind) -> u8
    ensures { result ≡ kind_key kind }
{
    match kind {
        Kind::Start => 0,
        Kind::Requires => 1,
        Kind::Ensures => 2,
        Kind::Entry => 3,
        Kind::Again => 4,
        Kind::Assert => 5,
        Kind::Fold => 6,
        Kind::Unfold => 7,
        Kind::Access => 8,
        Kind::Trap => 9,
    }
}
