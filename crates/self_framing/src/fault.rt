//! A broken rule on framing or guards, where it stands, and the first one.

ghost use Rattle.std.specs.Prelude.{◌≡◌, not, fold, map};
ghost use Rattle.gc0_tree.specs.Sites.{text_key, token_if, is_before};
ghost use Rattle.self_framing.specs.declared.fault.FrameFault.TheVariants as fault;
ghost use Rattle.self_framing.specs.FrameFaults.{fault_place, earlier};

use gc0_base::Place;
use thiserror::Error;

/// A broken rule on framing or guards.
#[derive(Clone, Copy, Debug, PartialEq, Eq, Error)]
pub enum FrameFault {
    /// A read of a precise clause, invariant or predicate has no `acc` of the same path and field
    /// to its left. The place is that of its `->`.
    #[error("not framed at {}:{}", .0.line, .0.column)]
    NotFramed(Place),
    /// In a predicate an instance of the same or a later one has no `acc` to its left. The place
    /// is that of its name.
    #[error("unguarded at {}:{}", .0.line, .0.column)]
    Unguarded(Place),
}

fn place_of(fault: FrameFault) -> Place
    ensures { result ≡ fault_place fault }
{
    match fault {
        FrameFault::NotFramed(place) => place,
        FrameFault::Unguarded(place) => place,
    }
}

// A place as one number, in the order of the text.
fn key_of(place: Place) -> u64
    ensures { result ≡ text_key place }
{
    u64::from(place.line) * 4_294_967_296 + u64::from(place.column)
}

fn is_before(place: Place, other: Place) -> bool
    ensures { result ≡ is_before place other }
{
    key_of(place) < key_of(other)
}

// Keeps a fault if it stands before the first one so far.
fn report(least: &mut Option<FrameFault>, found: FrameFault)
    ensures { least.new ≡ earlier least.old found }
{
    match *least {
        Some(known) if !is_before(place_of(found), place_of(known)) => {}
        _ => *least = Some(found),
    }
}

/// Reports a read at this place, unless it has its permission.
pub fn report_read(least: &mut Option<FrameFault>, permitted: bool, place: Place)
    ensures { least.new ≡ fold earlier least.old (map fault.NotFramed (token_if (not permitted) place)) }
{
    if !permitted {
        report(least, FrameFault::NotFramed(place));
    }
}

/// Reports an instance at this place, unless it has its guard.
pub fn report_instance(least: &mut Option<FrameFault>, guarded: bool, place: Place)
    ensures { least.new ≡ fold earlier least.old (map fault.Unguarded (token_if (not guarded) place)) }
{
    if !guarded {
        report(least, FrameFault::Unguarded(place));
    }
}
