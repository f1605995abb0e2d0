//! Both searches over one table of formulas, each written as the DIMACS format writes it.
use plain_search::plain_search;
use sat_check::{Clause, Lit, Lits, Scratch, Verdict, are_below, check};
use sat_search::search;
use search_base::Found;
use std::alloc::{AllocError, Global};
use std::test::Fail;

// Three pigeons into two holes, four into three, and two formulas of clauses of three literals over
// eight variables, of which trying all assignments finds the first refuted or satisfiable.
static PIGEONS_3: [i32; 27] = [
    1, 2, 0, 3, 4, 0, 5, 6, 0, -1, -3, 0, -1, -5, 0, -3, -5, 0, -2, -4, 0, -2, -6, 0, -4, -6, 0,
];

static PIGEONS_4: [i32; 70] = [
    1, 2, 3, 0, 4, 5, 6, 0, 7, 8, 9, 0, 10, 11, 12, 0, -1, -4, 0, -1, -7, 0, -1, -10, 0, -4, -7, 0,
    -4, -10, 0, -7, -10, 0, -2, -5, 0, -2, -8, 0, -2, -11, 0, -5, -8, 0, -5, -11, 0, -8, -11, 0,
    -3, -6, 0, -3, -9, 0, -3, -12, 0, -6, -9, 0, -6, -12, 0, -9, -12, 0,
];

static RANDOM_SATISFIABLE: [i32; 136] = [
    -3, 5, -1, 0, -8, 4, 6, 0, -8, 1, -4, 0, 5, -6, 2, 0, 1, -8, 6, 0, 7, -6, -1, 0, 4, -3, -2, 0,
    1, 4, -5, 0, -2, 6, -3, 0, -5, 8, -4, 0, -4, 6, -8, 0, 6, 1, -4, 0, 6, -4, 8, 0, -5, 6, 8, 0,
    4, -1, -2, 0, 6, -4, 3, 0, -4, -8, 1, 0, -7, -4, 3, 0, 6, 4, 5, 0, -3, 7, 1, 0, -2, 7, -1, 0,
    4, -3, -1, 0, -2, 8, -7, 0, -5, -4, -6, 0, -2, -1, -3, 0, -4, 3, -1, 0, -1, 2, 8, 0, -3, 4, -6,
    0, 4, -5, -6, 0, -7, 1, 6, 0, 1, -3, -8, 0, -3, 4, 5, 0, -1, 5, 2, 0, 7, 2, -3, 0,
];

static RANDOM_REFUTED: [i32; 136] = [
    5, 3, 6, 0, 4, 6, 7, 0, 4, -6, 3, 0, 1, -3, -2, 0, -7, 2, -3, 0, -7, -6, 3, 0, -6, -7, 5, 0,
    -8, 6, -7, 0, -4, -2, -5, 0, -8, -3, 5, 0, 8, 5, -2, 0, -3, -1, 4, 0, 7, 8, -1, 0, 8, -6, -3,
    0, -6, 2, 8, 0, 8, 2, -5, 0, 6, 2, 3, 0, -4, 2, -1, 0, 6, 8, -1, 0, -2, 4, -3, 0, 6, -7, -1, 0,
    -3, 4, 5, 0, -5, 7, 1, 0, 5, -4, -6, 0, -4, -3, 2, 0, -6, -4, -1, 0, 2, -1, 7, 0, -8, -4, 5, 0,
    5, 8, 4, 0, 2, -3, -8, 0, -7, 3, 1, 0, -6, 4, -7, 0, -5, 2, 1, 0, 1, 2, -6, 0,
];

/// The clauses of a table, each ended by 0.
fn formula(alloc: Global, written: &[i32]) -> Result<Vec<Clause>, AllocError> {
    let mut clauses = Vec::new(alloc);
    let mut lits = Lits::new(alloc);
    for number in written {
        if *number == 0 {
            clauses.push(Clause { lits })?;
            lits = Lits::new(alloc);
        } else {
            lits.push(Lit {
                variable: number.unsigned_abs().saturating_sub(1),
                positive: *number > 0,
            })?;
        }
    }
    Ok(clauses)
}

/// Whether each clause has a literal that the values make true.
fn satisfies(values: &[bool], clauses: &[Clause]) -> bool {
    clauses.iter().all(|clause| {
        clause.lits.as_slice().iter().any(|lit| values.get(lit.variable as usize).copied()
            == Some(lit.positive))
    })
}

/// Whether what was found is an assignment, which satisfies the clauses, and not a log, which
/// `check` finds to refute them.
fn is_satisfiable(
    alloc: Global,
    variables: u32,
    clauses: &[Clause],
    found: &Found,
) -> Result<bool, Fail> {
    match found {
        Found::Assignment(values) => {
            if !satisfies(values.as_slice(), clauses) {
                return Err("the values satisfy not all".into());
            }
            Ok(true)
        }
        Found::Refuted(log) => {
            let mut scratch = Scratch::new(alloc, variables)?;
            if !are_below(variables, clauses) || !log.is_below(variables) {
                return Err("a variable is past the end".into());
            }
            if check(variables, clauses, log, &mut scratch) != Verdict::Refuted {
                return Err("the log refutes nothing".into());
            }
            Ok(false)
        }
        Found::Spent(_) => Err("spent".into()),
    }
}

/// The literal that a pigeon is in a hole.
fn placed(pigeon: u32, hole: u32, holes: u32, positive: bool) -> Lit {
    Lit {
        variable: pigeon.saturating_mul(holes).saturating_add(hole),
        positive,
    }
}

/// Each of so many pigeons is in one of so many holes, and no two are in one.
fn pigeons_into(alloc: Global, pigeons: u32, holes: u32) -> Result<Vec<Clause>, AllocError> {
    let mut clauses = Vec::new(alloc);
    for pigeon in 0..pigeons {
        let mut lits = Lits::new(alloc);
        for hole in 0..holes {
            lits.push(placed(pigeon, hole, holes, true))?;
        }
        clauses.push(Clause { lits })?;
    }
    for hole in 0..holes {
        for pigeon in 0..pigeons {
            for other in 0..pigeon {
                let mut lits = Lits::new(alloc);
                lits.push(placed(other, hole, holes, false))?;
                lits.push(placed(pigeon, hole, holes, false))?;
                clauses.push(Clause { lits })?;
            }
        }
    }
    Ok(clauses)
}

/// Runs both searches, and compares what they find.
fn both(alloc: Global, variables: u32, clauses: &[Clause]) -> Result<bool, Fail> {
    if !are_below(variables, clauses) {
        return Err("a variable is past the end".into());
    }
    let found = search(alloc, variables, clauses, 100_000)?;
    let plain = plain_search(alloc, variables, clauses, 100_000)?;
    let first = is_satisfiable(alloc, variables, clauses, &found)?;
    let second = is_satisfiable(alloc, variables, clauses, &plain)?;
    if first != second {
        return Err("the searches differ".into());
    }
    Ok(first)
}

/// Runs both searches over a table.
fn both_over(alloc: Global, variables: u32, written: &[i32]) -> Result<bool, Fail> {
    let clauses = formula(alloc, written)?;
    both(alloc, variables, clauses.as_slice())
}

#[test]
fn both_searches_agree(rt: HostRuntime) -> Result<(), Fail> {
    let alloc = rt.alloc();
    assert_eq!(rt; both_over(alloc, 6, &PIGEONS_3)?, false);
    assert_eq!(rt; both_over(alloc, 12, &PIGEONS_4)?, false);
    assert_eq!(rt; both_over(alloc, 8, &RANDOM_SATISFIABLE)?, true);
    assert_eq!(rt; both_over(alloc, 8, &RANDOM_REFUTED)?, false);
    Ok(())
}

// Eight pigeons have no place in seven holes, and it takes so many entries to learn that some are
// set aside. In eight they have.
#[test]
fn entries_are_set_aside(rt: HostRuntime) -> Result<(), Fail> {
    let alloc = rt.alloc();
    let clauses = pigeons_into(alloc, 8, 7)?;
    assert_eq!(rt; both(alloc, 56, clauses.as_slice())?, false);
    let clauses = pigeons_into(alloc, 8, 8)?;
    assert_eq!(rt; both(alloc, 64, clauses.as_slice())?, true);
    Ok(())
}
