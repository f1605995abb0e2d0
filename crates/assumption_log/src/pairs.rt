//! How many pairs of a site and a part there are among entries, by a walk from the last to the
//! first.

ghost use Rattle.std.specs.Prelude.{◌≡◌, map, IfOk};
ghost use Rattle.core_meaning.specs.CoreSited.{kind_number};
ghost use Rattle.assumption_log.specs.Records.{kept_view, count_pairs};
ghost use Rattle.assumption_log.specs.PairKeys.{pair_key, part_kind, part_number};

use crate::Kept;
use gc0_base::{Kind, Part, Site};
use indexmap::IndexSet;
use std::alloc::{AllocError, Global};
use std::hash::{Hash, Hasher};

/// What a pair of a site and a part is found again by in a set or a map.
#[derive(Clone, Copy, PartialEq, Eq, Hash)]
pub struct PairKey {
    function: u32,
    kind: u8,
    ordinal: u32,
    part_kind: u8,
    part_number: u32,
}

/// How many pairs of a site and a part there are among entries. Takes the time of one walk over
/// them.
///
/// Errors: there was not memory enough.
pub fn count_pairs(alloc: Global, entries: &[Kept]) -> Result<u64, AllocError>
    ensures { IfOk result (λ n. n ≡ count_pairs (map kept_view entries.now)) }
{
    let mut seen = IndexSet::new(alloc);
    let mut left = entries.len();
    while left > 0 {
        left -= 1;
        let entry = &entries[left];
        seen.insert(pair_key(entry.site, entry.part))?;
    }
    Ok(seen.len() as u64)
}

/// The key of a pair. Pairs have one key exactly where they are the same.
pub fn pair_key(site: Site, part: Part) -> PairKey
    ensures { result ≡ pair_key site part }
{
    PairKey {
        function: site.function,
        kind: kind_number(site.kind),
        ordinal: site.ordinal,
        part_kind: part_kind(part),
        part_number: part_number(part),
    }
}

// A kind as a number, which a key can hold and hash.
fn kind_number(kind: Kind) -> u8
    ensures { result ≡ kind_number kind }
{
    match kind {
        Kind::Start => 0,
        Kind::Requires => 1,
        Kind::Ensures => 2,
        Kind::Entry => 3,
        Kind::Again => 4,
        Kind::Assert => 5,
        Kind::Fold => 6,
        Kind::Unfold => 7,
        Kind::Access => 8,
        Kind::Trap => 9,
    }
}

// The same of what a part is, without its number.
fn part_kind(part: Part) -> u8
    ensures { result ≡ part_kind part }
{
    match part {
        Part::Value(_) => 0,
        Part::Reach(_) => 1,
        Part::Access => 2,
        Part::Whole => 3,
        Part::Separate => 4,
    }
}

// The number of a conjunct, and 0 where a part has none.
fn part_number(part: Part) -> u32
    ensures { result ≡ part_number part }
{
    match part {
        Part::Value(k) => k,
        Part::Reach(k) => k,
        Part::Access => 0,
        Part::Whole => 0,
        Part::Separate => 0,
    }
}
