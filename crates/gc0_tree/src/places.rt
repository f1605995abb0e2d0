//! The places of the sites of a program.

ghost use Rattle.std.specs.Prelude.{◌≡◌, ◌<◌, ◌^◌, ℕ, Bool, count_by, nat_lt, IfOk, slice_get};
ghost use Rattle.std.specs.List.{find};
ghost use Rattle.std.specs.List.Sorted.{IsNonDecreasingBy};
ghost use Rattle.gc0_base.specs.declared.place.Place.{Place};
ghost use Rattle.gc0_tree.specs.Sites.{text_key, has_number, site_tokens, token_place};
ghost use Rattle.gc0_tree.specs.Views.{program_view};

use crate::Program;
use crate::tokens::places_of;
use gc0_base::{Kind, Place, Site};
use std::alloc::{AllocError, Global};

/// Where the token of a site stands in the text. None exactly where there is no such site.
pub fn place_of(alloc: Global, program: &Program, site: Site) -> Result<Option<Place>, AllocError>
    ensures { IfOk result (λ place. place ≡ token_place (program_view program.now) site) }
{
    let tokens = tokens_of(alloc, program, site)?;
    numbered(alloc, &tokens, site.ordinal)
}

// The tokens of the site's kind in its function.
fn tokens_of(alloc: Global, program: &Program, site: Site) -> Result<Vec<Place>, AllocError>
    ensures { IfOk result (λ v. v.items ≡ site_tokens (program_view program.now) site (slice_get (program_view program.now).functions site.function)) }
{
    let Some(function) = program.functions.get(site.function as usize) else {
        return Ok(Vec::new(alloc));
    };
    if site.kind != Kind::Start {
        return places_of(alloc, function, site.kind);
    }
    let mut tokens = Vec::new(alloc);
    if site.function == program.main {
        tokens.push(function.place)?;
    }
    Ok(tokens)
}

// The token of this number in the order of the text. The tokens are sorted once, so that each
// question takes a binary search.
fn numbered(alloc: Global, tokens: &[Place], ordinal: u32) -> Result<Option<Place>, AllocError>
    ensures { IfOk result (λ place. place ≡ find (has_number tokens.now ordinal) tokens.now) }
{
    let sorted = sorted_copy(alloc, tokens)?;
    for place in tokens {
        if has_number(&sorted, ordinal, *place) {
            return Ok(Some(*place));
        }
    }
    Ok(None)
}

// The places in the order of the text.
fn sorted_copy(alloc: Global, tokens: &[Place]) -> Result<Vec<Place>, AllocError>
    ensures sorted { IfOk result (λ v. IsNonDecreasingBy text_key v.items) }
    ensures counts { IfOk result (λ v. (test : Place → Bool) → count_by test v.items ≡ count_by test tokens.now) }
{
    let mut sorted = Vec::from_slice(alloc, tokens)?;
    sorted.sort_unstable_by_key(|place| key_of(*place));
    Ok(sorted)
}

// Whether the token at a place has this number among sorted ones.
fn has_number(sorted: &[Place], ordinal: u32, place: Place) -> bool
    requires sorted { IsNonDecreasingBy text_key sorted.now }
    ensures { result ≡ has_number sorted.now ordinal place }
{
    let ordinal = ordinal as usize;
    let key = key_of(place);
    count_below(sorted, key) <= ordinal && ordinal < count_below(sorted, key + 1)
}

// A place as one number, in the order of the text.
fn key_of(place: Place) -> u128
    ensures is { result ≡ text_key place }
    ensures small { result < 2 ^ 64 }
{
    place.line as u128 * 0x1_0000_0000 + place.column as u128
}

// How many of the places have a lesser number.
fn count_below(places: &[Place], bound: u128) -> usize
    requires sorted { IsNonDecreasingBy text_key places.now }
    ensures { result ≡ count_by (λ token. nat_lt (text_key token) bound) places.now }
{
    places.partition_point(|token| key_of(*token) < bound)
}
