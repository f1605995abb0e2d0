//! The decisions of the choices of formulas, and the first of them.

ghost use Rattle.std.specs.Prelude.{◌≡◌, ◌<◌, ◌^◌, ◌++◌, length, OnOk};
ghost use Rattle.core_meaning.specs.CoreSited.{same_kind, same_site};
ghost use Rattle.core_tables.specs.SiteTables.{choices_at, same_phase, is_first, first_choice, start_row};

use core_tree::{DecisionAt, Origin, Phase, SiteAt};
use gc0_base::{Kind, Place, Site};
use sqlite_items::Items;
use std::alloc::AllocError;

/// Appends the decisions of the choices of a formula that is produced or consumed at a site; the
/// choices stand at these places.
///
/// Errors: there was not memory enough, or there are 2^32 choices or more.
pub fn append_choices(
    decisions: &mut Items<DecisionAt>,
    site: Site,
    phase: Phase,
    places: &[Place],
) -> Result<(), AllocError>
    ensures { OnOk result (decisions.new ≡ decisions.old ++ choices_at site phase 0 places.now) }
{
    let mut choice = 0;
    for place in places {
        let origin = Origin::Choice {
            site,
            phase,
            choice,
        };
        decisions.push(DecisionAt {
            place: *place,
            origin,
        })?;
        let Some(next) = choice.checked_add(1) else {
            return Err(AllocError);
        };
        choice = next;
    }
    Ok(())
}

/// Whether two kinds are the same.
pub fn same_kind(a: Kind, b: Kind) -> bool
    ensures { result ≡ same_kind a b }
{
    a == b
}

fn same_site(a: Site, b: Site) -> bool
    ensures { result ≡ same_site a b }
{
    a.function == b.function && same_kind(a.kind, b.kind) && a.ordinal == b.ordinal
}

fn same_phase(a: Phase, b: Phase) -> bool
    ensures { result ≡ same_phase a b }
{
    a == b
}

// Whether this is the first choice of a formula that is produced or consumed at a site.
fn is_first(site: Site, phase: Phase, origin: Origin) -> bool
    ensures { result ≡ is_first site phase origin }
{
    match origin {
        Origin::Branch => false,
        Origin::Choice {
            site: other,
            phase: other_phase,
            choice,
        } => same_site(site, other) && same_phase(phase, other_phase) && choice == 0,
    }
}

// The number of the first choice of a formula that is produced or consumed at a site, and of the
// decisions where there is none.
fn first_choice(site: Site, phase: Phase, decisions: &[DecisionAt]) -> u32
    requires { length decisions.now < 2 ^ 32 }
    ensures { result ≡ first_choice site phase decisions.now }
{
    let mut number = 0;
    for decision in decisions {
        if is_first(site, phase, decision.origin) {
            return number;
        }
        number += 1;
    }
    number
}

/// What is kept of the start of a function.
pub fn start_row(function: u32, start: Place, decisions: &[DecisionAt]) -> SiteAt
    requires { length decisions.now < 2 ^ 32 }
    ensures { result ≡ start_row function start decisions.now }
{
    let site = Site {
        function,
        kind: Kind::Start,
        ordinal: 0,
    };
    SiteAt {
        place: start,
        about: None,
        consumed: first_choice(site, Phase::Consume, decisions),
        produced: first_choice(site, Phase::Produce, decisions),
    }
}
