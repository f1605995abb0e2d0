//! The numbers of the sites of a function.

ghost use Rattle.std.specs.Prelude.{◌≡◌, ◌<◌, ◌^◌, length, count_by, IfOk};
ghost use Rattle.std.specs.List.Sorted.{IsNonDecreasingBy};
ghost use Rattle.std.proofs.Props.{props};
ghost use Rattle.gc0_base.specs.declared.site.Kind.TheVariants as kind;
ghost use Rattle.gc0_tree.specs.Numbered.{IsNumbered, Numbers};
ghost use Rattle.gc0_tree.specs.Sites.{text_key, is_before, sites_of};
ghost use Rattle.gc0_tree.specs.Views.{function_view};

use crate::Function;
use crate::tokens::places_of;
use gc0_base::{Kind, Place, Site};
use std::alloc::{AllocError, Global};

/// Finds the sites of one kind in a function.
///
/// A site is numbered by its token among the tokens of its kind, in the order of the text. The
/// places of the tokens are sorted once, so that each question takes a binary search.
#[derive(Drop)]
pub struct SiteNumbers<'a> {
    /// The function.
    pub function: &'a Function,
    /// Its number in the program.
    pub number: u32,
    /// The kind of the sites.
    pub kind: Kind,
    places: Vec<Place>,
    ghost sorted: { IsNonDecreasingBy text_key places.items } by { Prim.hlevel props },
    ghost few: { length places.items < 2 ^ 32 },
    ghost numbered: { Numbers (function_view function.now) kind places.items } by { Prim.hlevel props },
}

impl<'a> SiteNumbers<'a> {
    /// Sorts the tokens of a kind in the function of a number.
    pub fn new(
        alloc: Global,
        function: &'a Function,
        number: u32,
        kind: Kind,
    ) -> Result<SiteNumbers<'a>, AllocError>
        ensures function { IfOk result (λ n. n.function.now ≡ function.entry.now) }
        ensures number { IfOk result (λ n. n.number ≡ number) }
        ensures kind { IfOk result (λ n. n.kind ≡ kind) }
    {
        let places = sorted_places(alloc, function, kind)?;
        Ok(SiteNumbers {
            function,
            number,
            kind,
            places,
        })
    }

    /// The site whose token stands at a place.
    pub fn site(&self, place: Place) -> Site
        ensures { result ≡ sites_of self.now.number (function_view self.now.function.now) self.now.kind place }
    {
        let ordinal = count_before(self.places.as_slice(), place);
        Site {
            function: self.number,
            kind: self.kind,
            ordinal,
        }
    }
}

/// A place as one number, in the order of the text.
fn key_of(place: Place) -> u64
    ensures { result ≡ text_key place }
{
    place.line as u64 * 0x1_0000_0000 + place.column as u64
}

/// The places of all tokens of a kind, in the order of the text. A function with 2^32 of them is
/// answered like one for which the memory doesn't suffice.
fn sorted_places(alloc: Global, function: &Function, kind: Kind) -> Result<Vec<Place>, AllocError>
    ensures { IfOk result (λ v. IsNumbered (function_view function.now) kind v.items) }
{
    let mut places = places_of(alloc, function, kind)?;
    if places.len() > 0xffff_ffff {
        return Err(AllocError);
    }
    places.sort_unstable_by_key(|place| key_of(*place));
    Ok(places)
}

/// How many of the places stand before one.
fn count_before(places: &[Place], place: Place) -> u32
    requires sorted { IsNonDecreasingBy text_key places.now }
    requires few { length places.now < 2 ^ 32 }
    ensures { result ≡ count_by (λ token. is_before token place) places.now }
{
    let key = key_of(place);
    places.partition_point(|token| key_of(*token) < key) as u32
}
