//! Whether two sites of the code are the same one, by a walk from the last to the first.

ghost use Rattle.std.specs.Prelude.{◌≡◌, not, is_some, IfOk};
ghost use Rattle.core_meaning.specs.CoreSited.{kind_number};
ghost use Rattle.core_tables.specs.Apart.{are_apart};
ghost use Rattle.core_tables.specs.SiteKeys.{key_of};

use crate::PlacedSite;
use gc0_base::{Kind, Place, Site};
use indexmap::IndexSet;
use std::alloc::{AllocError, Global};
use std::hash::{Hash, Hasher};

// What a site is found again by among those that were seen.
#[derive(Clone, Copy, PartialEq, Eq, Hash)]
struct SiteKey {
    function: u32,
    kind: u8,
    ordinal: u32,
}

/// Where two sites of the code are the same one, if two are: the place of one of them. A text that
/// was read has none.
///
/// Errors: there was not memory enough.
pub fn shared_site(alloc: Global, placed: &[PlacedSite]) -> Result<Option<Place>, AllocError>
    ensures { IfOk result (λ found. is_some found ≡ not (are_apart placed.now)) }
{
    let mut seen = IndexSet::new(alloc);
    let mut left = placed.len();
    while left > 0 {
        left -= 1;
        let x = placed[left];
        let added = seen.insert(key_of(x.site))?;
        if !added {
            return Ok(Some(x.place));
        }
    }
    Ok(None)
}

// The key of a site. Sites have one key exactly where they are the same.
fn key_of(site: Site) -> SiteKey
    ensures { result ≡ key_of site }
{
    SiteKey {
        function: site.function,
        kind: kind_number(site.kind),
        ordinal: site.ordinal,
    }
}

// A kind as a number, which a key can hold and hash.
fn kind_number(kind: Kind) -> u8
    ensures { result ≡ kind_number kind }
{
    match kind {
        Kind::Start => 0,
        Kind::Requires => 1,
        Kind::Ensures => 2,
        Kind::Entry => 3,
        Kind::Again => 4,
        Kind::Assert => 5,
        Kind::Fold => 6,
        Kind::Unfold => 7,
        Kind::Access => 8,
        Kind::Trap => 9,
    }
}
