//! What is kept to be checked at run time, entry by entry.
#![tactic(auto)]

mod all;
mod pairs;
mod same;
#[cfg(test)]
mod tests;

ghost use Rattle.std.specs.Prelude.{◌≡◌, ◌++◌, ◌∷◌, [], IfOk, OnOk, OnErr, length};
ghost use Rattle.assumption_log.specs.Records.{kept_view, record_view, all_known, is_known, says_part, is_among, parts_at, count_pairs};

pub use all::keep_all;
use gc0_base::{Decision, Part, Site};
use pairs::count_pairs;
pub use pairs::{PairKey, pair_key};
pub use same::{same_decision, same_kind, same_part, same_site};
use sqlite_items::Items;
use std::alloc::{AllocError, Global};

/// Why a part is checked at run time.
#[derive(Clone, Copy, Debug, PartialEq, Eq)]
pub enum Reason {
    /// Everything is checked.
    Full,
    /// Permissions may overlap.
    Separate,
    /// The function has too many decision paths.
    Paths,
}

/// A part that is checked at a site where each decision had its outcome last.
#[derive(Drop)]
pub struct Kept {
    /// Where it is checked.
    pub site: Site,
    /// The decisions, each with the outcome that it is to have.
    pub decisions: Items<(Decision, bool)>,
    /// What is checked.
    pub part: Part,
    /// Why.
    pub reason: Reason,
}

/// What is kept to be checked, in the order in which it was kept.
#[derive(Drop)]
pub struct Record {
    /// The entries.
    pub entries: Items<Kept>,
}

impl Record {
    /// A record without entries. It takes no memory.
    pub fn new(alloc: Global) -> Record
        ensures { record_view result ≡ [] }
    {
        Record {
            entries: Items::new(alloc),
        }
    }

    /// Keeps an entry behind those that were kept before.
    ///
    /// Errors: there was not memory enough. Then the record is as it was.
    pub fn keep(&mut self, entry: Kept) -> Result<(), AllocError>
        ensures ok { OnOk result (record_view self.new ≡ record_view self.old ++ kept_view entry ∷ []) }
        ensures err { OnErr result (record_view self.new ≡ record_view self.old) }
    {
        self.entries.push(entry)
    }

    /// The parts that are checked at a site where these decisions had these outcomes, in order and
    /// once each. Takes the time of a walk over all entries.
    ///
    /// Errors: there was not memory enough.
    pub fn parts_at(
        &self,
        alloc: Global,
        site: Site,
        known: &[(Decision, bool)],
    ) -> Result<Items<Part>, AllocError>
        ensures { IfOk result (λ parts. parts ≡ parts_at (record_view self.now) site known.now) }
    {
        let mut found = Items::new(alloc);
        for entry in self.entries.as_slice() {
            if says_part(entry, site, known) && !is_among(entry.part, found.as_slice()) {
                found.push(entry.part)?;
            }
        }
        Ok(found)
    }

    /// How many pairs of a site and a part there are among the entries.
    ///
    /// Errors: there was not memory enough.
    pub fn count(&self, alloc: Global) -> Result<u64, AllocError>
        ensures { IfOk result (λ n. n ≡ count_pairs (record_view self.now)) }
    {
        count_pairs(alloc, self.entries.as_slice())
    }
}

// Whether an entry is of the site, and its decisions are all among those that are known.
fn says_part(entry: &Kept, site: Site, known: &[(Decision, bool)]) -> bool
    ensures { result ≡ says_part site known.now (kept_view entry.now) }
{
    same_site(entry.site, site) && all_known(entry.decisions.as_slice(), known)
}

// Whether each decision is among those that are known, with its outcome.
fn all_known(decisions: &[(Decision, bool)], known: &[(Decision, bool)]) -> bool
    ensures { result ≡ all_known known.now decisions.now }
{
    for decision in decisions {
        if !is_known(*decision, known) {
            return false;
        }
    }
    true
}

fn is_known(wanted: (Decision, bool), known: &[(Decision, bool)]) -> bool
    ensures { result ≡ is_known wanted known.now }
{
    for one in known {
        if same_decision(wanted.0, one.0) && wanted.1 == one.1 {
            return true;
        }
    }
    false
}

fn is_among(part: Part, parts: &[Part]) -> bool
    ensures { result ≡ is_among part parts.now }
{
    for one in parts {
        if same_part(*one, part) {
            return true;
        }
    }
    false
}
