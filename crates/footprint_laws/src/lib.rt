//! Laws of footprints: what `holds` of c0_meaning gives. They hold of the definitions, so the
//! functions do nothing.
#![tactic(auto)]

ghost use Rattle.footprint_laws.specs.FootprintLaws.{larger_law, footprint_law, unroll_law};

/// A footprint in a set of owned cells is the same footprint in each larger set, for every formula.
pub fn larger_sets()
    ensures { larger_law }
{}

/// Each cell of a footprint is owned and in the heap, and no cell is in it twice.
pub fn footprints_are_owned()
    ensures { footprint_law }
{}

/// In a guarded program an instance of a predicate is its body.
pub fn instance_is_body()
    ensures { unroll_law }
{}
