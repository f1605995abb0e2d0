//! A core that runs with the checks of a placement in place of its contracts, and the law that it
//! does what the core does where the record is right.
#![tactic(auto)]

ghost use Rattle.watched_core.specs.WatchLaws.{watch_law, bare_law};

use footprint_laws::{footprints_are_owned, larger_sets};
use frame_laws::frames;

/// With the placement of a right record a stepped core shows what its run shows: the output, the
/// ending, and what is there where it stops, for every input and number of steps. It holds of the
/// definitions, by the laws of footprints and of frames; so this function does nothing but call
/// those.
pub fn watched_shows()
    ensures { watch_law }
{
    larger_sets();
    footprints_are_owned();
    frames();
}

/// With the placement of a record of a stepped core a function that isn't tracked has no part at its
/// sites, and calls none that is tracked. It holds of the definitions, so this function does nothing.
pub fn untracked_functions_are_bare()
    ensures { bare_law }
{}
