//! Laws of runs of a core: what code does to the heap and to what is owned, and what a run only
//! adds. They hold of the definitions, by the law that footprints are owned; so the functions do
//! nothing but call that law.
#![tactic(auto)]

ghost use Rattle.frame_laws.specs.FrameLaws.{code_frame_law, call_frame_law, inner_frame_law, code_in_heap_law, call_in_heap_law, code_keeping_law, call_keeping_law, code_size_law, call_words_law};

use footprint_laws::footprints_are_owned;

/// Code, a call, or a call before its set is joined, owns at its end what was owned and what was
/// made since, and leaves the words of all other cells as they were.
pub fn frames()
    ensures code { code_frame_law }
    ensures call { call_frame_law }
    ensures inner { inner_frame_law }
{
    footprints_are_owned();
}

/// Where the owned cells are in the heap, they are so behind code and behind a call.
pub fn owned_cells_stay()
    ensures code { code_in_heap_law }
    ensures call { call_in_heap_law }
{
    footprints_are_owned();
}

/// A run only adds visits, however it ends.
pub fn visits_are_added()
    ensures code { code_keeping_law }
    ensures call { call_keeping_law }
{
    footprints_are_owned();
}

/// Code keeps how many words and outcomes there are, and a call leaves those of its caller.
pub fn words_are_kept()
    ensures code { code_size_law }
    ensures call { call_words_law }
{
    footprints_are_owned();
}
