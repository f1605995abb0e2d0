//! Footprints of the clauses of a text over a heap of two objects, worked by hand.

ghost use Rattle.std.specs.Prelude.{◌≡◌, [], true, IsTrue};
ghost use Rattle.gc0_tree.specs.Views.{predicate_view, program_view};
ghost use Rattle.std.specs.Prelude.{map};
ghost use Rattle.c0_meaning.specs.Framing.{predicates_unguarded};

use c0_lex::tokens;
use c0_parse::parse;
use c0_types::resolve;
use frame_ownership::Walker;
use gc0_base::{Limits, Word};
use gc0_tree::Program;
use owned_heap::{Cell, Heap, Levels};
use self_framing::check_framing;
use std::alloc::{AllocError, Global};
use std::test::Fail;

// A list, two cells that are apart, and a cell with a value.
const LISTS: &str = "struct node { int val; struct node* next; };
/*@ predicate list(struct node* l) = l == NULL ? true : acc(l->val) && acc(l->next) && list(l->next); @*/
void all(struct node* l) /*@requires list(l); @*/ { }
void two(struct node* a, struct node* b) /*@requires acc(a->val) && acc(b->val); @*/ { }
void seven(struct node* a) /*@requires acc(a->val) && a->val == 7; @*/ { }
int main() { return 0; }
";

// The program of a text, if it is one.
fn program_of(alloc: Global, text: &str) -> Option<Program> {
    let text = text.as_bytes();
    if text.len() > Limits::SOURCE {
        return None;
    }
    let Ok(tokens) = tokens(alloc, text) else {
        return None;
    };
    let Ok(parsed) = parse(alloc, tokens.as_slice()) else {
        return None;
    };
    resolve(alloc, &parsed).ok()
}

// Whether the predicates of a program are guarded.
fn guarded(program: &Program) -> bool
    ensures { IsTrue result → predicates_unguarded 0 (map predicate_view program.now.predicates) ≡ [] }
{
    check_framing(program).is_ok()
}

// Two nodes in a list: the first has 5 and leads to the second, which has 7.
fn nodes(alloc: Global) -> Result<Heap, AllocError> {
    let mut heap = Heap::new(alloc);
    let first = heap.new_object(0, 2)?;
    let second = heap.new_object(0, 2)?;
    heap.set(cell(first, 0), Word(5));
    heap.set(cell(first, 1), Word(second));
    heap.set(cell(second, 0), Word(7));
    Ok(heap)
}

fn cell(object: u32, field: u32) -> Cell {
    Cell { object, field }
}

// How many cells the `requires` of a function takes over these words, if it holds.
fn taken(
    alloc: Global,
    program: &Program,
    function: usize,
    words: &[Word],
    heap: &Heap,
    levels: &Levels,
) -> Result<Option<usize>, AllocError> {
    if !guarded(program) {
        return Ok(None);
    }
    let Some(function) = program.functions.get(function) else {
        return Ok(None);
    };
    let mut walker = Walker::new(alloc);
    let predicates = program.predicates.as_slice();
    if walker.footprint(predicates, &function.before, words, heap, levels)? {
        Ok(Some(walker.cells().len()))
    } else {
        Ok(None)
    }
}

#[test]
fn clauses_take_their_cells(rt: HostRuntime) -> Result<(), Fail> {
    let alloc = rt.alloc();
    let Some(program) = program_of(alloc, LISTS) else {
        return Err("no program".into());
    };
    let heap = nodes(alloc)?;
    let mut levels = Levels::new(alloc);
    assert_eq!(rt;
        taken(alloc, &program, 0, &[Word(0)], &heap, &levels)?,
        Some(0)
    );
    assert_eq!(rt;
        taken(alloc, &program, 0, &[Word(2)], &heap, &levels)?,
        None
    );
    levels.own_new(&heap, 1)?;
    levels.own_new(&heap, 2)?;
    assert_eq!(rt;
        taken(alloc, &program, 0, &[Word(1)], &heap, &levels)?,
        Some(4)
    );
    assert_eq!(rt;
        taken(alloc, &program, 0, &[Word(2)], &heap, &levels)?,
        Some(2)
    );
    assert_eq!(rt;
        taken(alloc, &program, 1, &[Word(1), Word(2)], &heap, &levels)?,
        Some(2)
    );
    assert_eq!(rt;
        taken(alloc, &program, 1, &[Word(2), Word(2)], &heap, &levels)?,
        None
    );
    assert_eq!(rt;
        taken(alloc, &program, 2, &[Word(2)], &heap, &levels)?,
        Some(1)
    );
    assert_eq!(rt;
        taken(alloc, &program, 2, &[Word(1)], &heap, &levels)?,
        None
    );
    assert_eq!(rt;
        taken(alloc, &program, 2, &[Word(0)], &heap, &levels)?,
        None
    );
    levels.open_precise(&heap, &[cell(2, 0), cell(2, 1)])?;
    assert_eq!(rt;
        taken(alloc, &program, 0, &[Word(1)], &heap, &levels)?,
        None
    );
    assert_eq!(rt;
        taken(alloc, &program, 0, &[Word(2)], &heap, &levels)?,
        Some(2)
    );
    levels.close();
    assert_eq!(rt;
        taken(alloc, &program, 0, &[Word(1)], &heap, &levels)?,
        Some(4)
    );
    Ok(())
}
