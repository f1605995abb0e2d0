//! Whether two sites, decisions or parts are the same.

ghost use Rattle.std.specs.Prelude.{◌≡◌};
ghost use Rattle.core_meaning.specs.CoreSited.{same_kind, same_site};
ghost use Rattle.core_checks.specs.Placements.{same_decision, same_part};

use gc0_base::{Decision, Kind, Part, Site};

/// Whether two kinds of sites are the same.
pub fn same_kind(a: Kind, b: Kind) -> bool
    ensures { result ≡ same_kind a b }
{
    a == b
}

/// Whether two sites are the same.
pub fn same_site(a: Site, b: Site) -> bool
    ensures { result ≡ same_site a b }
{
    a.function == b.function && same_kind(a.kind, b.kind) && a.ordinal == b.ordinal
}

/// Whether two decisions are the same.
pub fn same_decision(a: Decision, b: Decision) -> bool
    ensures { result ≡ same_decision a b }
{
    a.function == b.function && a.number == b.number
}

/// Whether two parts are the same.
pub fn same_part(a: Part, b: Part) -> bool
    ensures { result ≡ same_part a b }
{
    a == b
}
