//! The sites of a core, by index.

ghost use Rattle.std.specs.Prelude.{◌≡◌, slice_get};
ghost use Rattle.std.specs.Option.{option_map};
ghost use Rattle.core_tree.specs.CoreSites.{row_in, row_at, site_row};
ghost use Rattle.core_tree.specs.CoreViews.{core_view};

use crate::{Core, SiteAt, SiteTable};
use gc0_base::{Kind, Place, Site};

impl SiteTable {
    /// What is kept of the site of a kind with this ordinal. Each function has its start.
    pub fn row(&self, kind: Kind, ordinal: u32) -> Option<SiteAt>
        ensures { result ≡ row_in self.now kind ordinal }
    {
        let rows = match kind {
            Kind::Start => return if ordinal == 0 { Some(self.start) } else { None },
            Kind::Requires => &self.calls,
            Kind::Ensures => &self.returns,
            Kind::Entry => &self.entry,
            Kind::Again => &self.again,
            Kind::Assert => &self.asserts,
            Kind::Fold => &self.folds,
            Kind::Unfold => &self.unfolds,
            Kind::Access => &self.accesses,
            Kind::Trap => &self.traps,
        };
        rows.get(ordinal as usize).copied()
    }
}

/// What is kept of a site, or of the start of any function.
pub fn row_at(core: &Core, site: Site) -> Option<SiteAt>
    ensures { result ≡ row_at (core_view core.now) site }
{
    let function = core.functions.get(site.function as usize)?;
    function.sites.row(site.kind, site.ordinal)
}

/// What is kept of a site. None exactly where there is no such site: a start is one in `main`
/// alone.
pub fn site_at(core: &Core, site: Site) -> Option<SiteAt>
    ensures { result ≡ site_row (core_view core.now) site }
{
    if site.kind == Kind::Start && site.function != core.main {
        return None;
    }
    row_at(core, site)
}

/// Where the token of a site stands in the text. None exactly where there is no such site.
pub fn place_at(core: &Core, site: Site) -> Option<Place>
    ensures { result ≡ option_map (λ row. row.place) (site_row (core_view core.now) site) }
{
    let row = site_at(core, site)?;
    Some(row.place)
}
