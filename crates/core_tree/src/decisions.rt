//! The decisions of the choices of formulas.

ghost use Rattle.std.specs.Prelude.{◌≡◌};
ghost use Rattle.core_tree.specs.CoreSites.{first_of, first_number, HasChoice, choice_decision, IsOrigin};
ghost use Rattle.core_tree.specs.CoreViews.{core_view};

use crate::sites::row_at;
use crate::{Core, Phase, SiteAt};
use gc0_base::{Decision, Site};

/// The decision of a choice of the formula that is produced or consumed at a site: the first
/// number that is kept of the site, and the choice's own number behind it.
pub fn choice_at(core: &Core, site: Site, phase: Phase, choice: u32) -> Decision
    requires { HasChoice (core_view core.now) site phase choice }
    ensures number { result ≡ choice_decision (core_view core.now) site phase choice }
    ensures origin { IsOrigin (core_view core.now) result site phase choice }
{
    Decision {
        function: site.function,
        number: first_number(core, site, phase) + choice,
    }
}

// The number of the first decision of a formula's choices there, or 0 where nothing is kept.
fn first_number(core: &Core, site: Site, phase: Phase) -> u32
    ensures { result ≡ first_number (core_view core.now) site phase }
{
    match row_at(core, site) {
        None => 0,
        Some(row) => first_of(row, phase),
    }
}

fn first_of(row: SiteAt, phase: Phase) -> u32
    ensures { result ≡ first_of row phase }
{
    match phase {
        Phase::Produce => row.produced,
        Phase::Consume => row.consumed,
    }
}
