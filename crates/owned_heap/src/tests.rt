//! Each public function once, and a table of levels in one another, its values by hand.

use super::{Cell, Heap, Levels};
use gc0_base::Word;
use std::test::Fail;

fn cell(object: u32, field: u32) -> Cell {
    Cell { object, field }
}

#[test]
fn words_lie_in_cells(rt: HostRuntime) -> Result<(), Fail> {
    let mut heap = Heap::new(rt.alloc());
    assert_eq!(rt; heap.objects(), 0);
    heap.reserve_cells(3)?;
    assert_eq!(rt; heap.new_object(7, 2)?, 1);
    assert_eq!(rt; heap.new_object(8, 0)?, 2);
    assert_eq!(rt; heap.new_object(9, 1)?, 3);
    assert_eq!(rt; heap.objects(), 3);
    assert_eq!(rt; heap.struct_of(3), Some(9));
    assert_eq!(rt; heap.struct_of(0), None);
    assert_eq!(rt; heap.fields_of(2), Some(0));
    assert_eq!(rt; heap.fields_of(4), None);
    heap.set(cell(1, 1), Word(5));
    heap.set(cell(3, 0), Word(6));
    heap.set(cell(2, 0), Word(1));
    heap.set(cell(0, 0), Word(1));
    assert_eq!(rt; heap.value(cell(1, 0)), Some(Word(0)));
    assert_eq!(rt; heap.value(cell(1, 1)), Some(Word(5)));
    assert_eq!(rt; heap.value(cell(1, 2)), None);
    assert_eq!(rt; heap.value(cell(2, 0)), None);
    assert_eq!(rt; heap.value(cell(3, 0)), Some(Word(6)));
    assert_eq!(rt; heap.value(cell(0, 0)), None);
    assert_eq!(rt; heap.value(cell(4, 0)), None);
    Ok(())
}

// What happens to the levels.
enum Step {
    // An object with one field is made.
    Make,
    // A level opens, with those of the four cells.
    Open([bool; 4]),
    OpenAll,
    Close,
    OwnNew(u32),
    Adopt(u32),
}

// The fields of object 1, and the field of object 2 and of object 3.
const CELLS: [Cell; 4] = [
    Cell {
        object: 1,
        field: 0,
    },
    Cell {
        object: 1,
        field: 1,
    },
    Cell {
        object: 2,
        field: 0,
    },
    Cell {
        object: 3,
        field: 0,
    },
];

// Each step, and which of the four cells the running level then owns.
const STEPS: [(Step, [bool; 4]); 16] = [
    (Step::Make, [false, false, false, false]),
    (Step::OwnNew(1), [true, true, false, false]),
    (Step::OwnNew(2), [true, true, true, false]),
    (
        Step::Open([true, false, true, false]),
        [true, false, true, false],
    ),
    (
        Step::Open([false, false, true, false]),
        [false, false, true, false],
    ),
    (Step::Make, [false, false, true, false]),
    (Step::OwnNew(3), [false, false, true, true]),
    (Step::OpenAll, [false, false, true, true]),
    (Step::Close, [false, false, true, true]),
    (Step::Close, [true, false, true, true]),
    (Step::Close, [true, true, true, true]),
    (
        Step::Open([false, false, false, false]),
        [false, false, false, false],
    ),
    (Step::Adopt(2), [false, false, false, true]),
    (Step::Adopt(0), [true, true, true, true]),
    (Step::Close, [true, true, true, true]),
    (Step::Close, [true, true, true, true]),
];

#[test]
fn levels_own_what_was_counted_by_hand(rt: HostRuntime) -> Result<(), Fail> {
    let mut heap = Heap::new(rt.alloc());
    let mut levels = Levels::new(rt.alloc());
    heap.new_object(7, 2)?;
    for (step, owned) in &STEPS {
        match step {
            Step::Make => {
                heap.new_object(8, 1)?;
            }
            Step::Open(cells) => {
                let mut chosen = Vec::new(rt.alloc());
                for (at, cell) in CELLS.iter().enumerate() {
                    if cells[at] {
                        chosen.push(*cell)?;
                    }
                }
                levels.open_precise(&heap, chosen.as_slice())?;
            }
            Step::OpenAll => levels.open_all()?,
            Step::Close => levels.close(),
            Step::OwnNew(object) => levels.own_new(&heap, *object)?,
            Step::Adopt(first) => levels.adopt_since(*first, &heap)?,
        }
        for (at, cell) in CELLS.iter().enumerate() {
            assert_eq!(rt; levels.owns(&heap, *cell), owned[at]);
        }
    }
    Ok(())
}
