//! What is kept of the sites of one kind, in two walks from the last to the first: over the sites
//! of the code, and over the decisions.

ghost use Rattle.std.specs.Prelude.{◌≡◌, ◌<◌, ◌^◌, ◌+◌, [], ◌∷◌, ℕ, ◌&&◌, eqb, List, length, replicate, IfOk};
ghost use Rattle.gc0_base.specs.declared.place.Place.{Place};
ghost use Rattle.core_tree.specs.declared.DecisionAt.{DecisionAt};
ghost use Rattle.core_tables.specs.declared.PlacedSite.{PlacedSite};
ghost use Rattle.core_meaning.specs.CoreSited.{same_kind};
ghost use Rattle.core_tables.specs.RowSteps.{rows_behind, count_of, numbered};
ghost use Rattle.core_tables.specs.SiteTables.{rows};

use crate::PlacedSite;
use crate::choices::same_kind;
use core_tree::{DecisionAt, Origin, Phase, SiteAt};
use gc0_base::{Kind, Place, Site};
use sqlite_items::Items;
use std::alloc::{AllocError, Global};

/// What is kept of the sites of a kind, by their ordinals: as many rows as sites of the kind.
///
/// Errors: there was not memory enough.
pub fn rows_of(
    alloc: Global,
    function: u32,
    kind: Kind,
    start: Place,
    placed: &[PlacedSite],
    decisions: &[DecisionAt],
) -> Result<Items<SiteAt>, AllocError>
    requires { length decisions.now < 2 ^ 32 }
    ensures { IfOk result (λ rs. rs ≡ rows function start placed.now decisions.now kind) }
{
    let number = decisions.len() as u32;
    let blank = SiteAt {
        place: start,
        about: None,
        consumed: number,
        produced: number,
    };
    let mut rows = blank_rows(alloc, kind, blank, placed)?;
    place_rows(&mut rows, function, kind, placed);
    number_rows(&mut rows, function, kind, decisions);
    Ok(rows)
}

// As many of these rows as sites of a kind.
fn blank_rows(
    alloc: Global,
    kind: Kind,
    blank: SiteAt,
    placed: &[PlacedSite],
) -> Result<Items<SiteAt>, AllocError>
    ensures { IfOk result (λ rs. rs ≡ replicate (count_of kind placed.now) blank) }
{
    let mut rows = Items::new(alloc);
    for x in placed {
        if same_kind(x.site.kind, kind) {
            rows.push(blank)?;
        }
    }
    Ok(rows)
}

// Sets the places of rows, and what they are about.
fn place_rows(rows: &mut Items<SiteAt>, function: u32, kind: Kind, placed: &[PlacedSite])
    ensures { (start : Place) (number count : ℕ) → rows.old ≡ rows_behind function kind start [] number [] count → rows.new ≡ rows_behind function kind start placed.now number [] count }
{
    let mut left = placed.len();
    while left > 0 {
        left -= 1;
        place_row(rows, function, kind, placed[left]);
    }
}

// The same of the row of one site, if it is of this function and kind.
fn place_row(rows: &mut Items<SiteAt>, function: u32, kind: Kind, x: PlacedSite)
    ensures { (start : Place) (behind : List PlacedSite) (number count : ℕ) → rows.old ≡ rows_behind function kind start behind number [] count → rows.new ≡ rows_behind function kind start (x ∷ behind) number [] count }
{
    if is_of(x.site, function, kind) {
        let index = x.site.ordinal as usize;
        if let Some(row) = rows.get(index).copied() {
            let placed = SiteAt {
                place: x.place,
                about: x.about,
                ..row
            };
            rows.set(index, placed);
        }
    }
}

// Sets the numbers of the first choices of rows.
fn number_rows(rows: &mut Items<SiteAt>, function: u32, kind: Kind, decisions: &[DecisionAt])
    requires { length decisions.now < 2 ^ 32 }
    ensures { (start : Place) (placed : List PlacedSite) (count : ℕ) → rows.old ≡ rows_behind function kind start placed (length decisions.now) [] count → rows.new ≡ rows_behind function kind start placed 0 decisions.now count }
{
    let mut left = decisions.len();
    while left > 0 {
        left -= 1;
        number_row(rows, function, kind, left as u32, decisions[left]);
    }
}

// The same of the row whose first choice a decision is, if it is one of this function and kind.
fn number_row(rows: &mut Items<SiteAt>, function: u32, kind: Kind, number: u32, d: DecisionAt)
    ensures { (start : Place) (placed : List PlacedSite) (behind : List DecisionAt) (count : ℕ) → rows.old ≡ rows_behind function kind start placed (number + 1) behind count → rows.new ≡ rows_behind function kind start placed number (d ∷ behind) count }
{
    match d.origin {
        Origin::Branch => {}
        Origin::Choice {
            site,
            phase,
            choice,
        } => {
            if choice == 0 && is_of(site, function, kind) {
                let index = site.ordinal as usize;
                if let Some(row) = rows.get(index).copied() {
                    rows.set(index, numbered(row, phase, number));
                }
            }
        }
    }
}

// Whether a site is one of a function and a kind.
fn is_of(site: Site, function: u32, kind: Kind) -> bool
    ensures { result ≡ (eqb function site.function && same_kind kind site.kind) }
{
    site.function == function && same_kind(kind, site.kind)
}

// The row with this number of the first choice that is produced or consumed.
fn numbered(row: SiteAt, phase: Phase, number: u32) -> SiteAt
    ensures { result ≡ numbered row phase number }
{
    match phase {
        Phase::Produce => SiteAt {
            produced: number,
            ..row
        },
        Phase::Consume => SiteAt {
            consumed: number,
            ..row
        },
    }
}
