//! Searches over few clauses, one of each kind of end.
use sat_check::{Clause, Lit, Lits, Scratch, Verdict, are_below, check};
use sat_search::search;
use search_base::Found;
use std::alloc::{AllocError, Global};
use std::test::Fail;

/// A clause as the DIMACS format writes it: variable 0 is 1, and a minus negates.
fn clause(alloc: Global, written: &[i32]) -> Result<Clause, AllocError> {
    let mut lits = Lits::new(alloc);
    for number in written {
        lits.push(Lit {
            variable: number.unsigned_abs().saturating_sub(1),
            positive: *number > 0,
        })?;
    }
    Ok(Clause { lits })
}

/// The four clauses over two variables, which no assignment satisfies.
fn all_of_two(alloc: Global) -> Result<Vec<Clause>, AllocError> {
    let mut clauses = Vec::new(alloc);
    clauses.push(clause(alloc, &[1, 2])?)?;
    clauses.push(clause(alloc, &[1, -2])?)?;
    clauses.push(clause(alloc, &[-1, 2])?)?;
    clauses.push(clause(alloc, &[-1, -2])?)?;
    Ok(clauses)
}

#[test]
fn refuted_within_nine(rt: HostRuntime) -> Result<(), Fail> {
    let alloc = rt.alloc();
    let clauses = all_of_two(alloc)?;
    assert!(rt; are_below(2, clauses.as_slice()));
    let found = search(alloc, 2, clauses.as_slice(), 9)?;
    let Found::Refuted(log) = found else {
        return Err("not refuted".into());
    };
    let mut scratch = Scratch::new(alloc, 2)?;
    assert!(rt; log.is_below(2));
    assert_eq!(rt;
        check(2, clauses.as_slice(), &log, &mut scratch),
        Verdict::Refuted
    );
    Ok(())
}

#[test]
fn spent_at_once(rt: HostRuntime) -> Result<(), Fail> {
    let alloc = rt.alloc();
    let clauses = all_of_two(alloc)?;
    assert!(rt; are_below(2, clauses.as_slice()));
    let found = search(alloc, 2, clauses.as_slice(), 0)?;
    let Found::Spent(log) = found else {
        return Err("not spent".into());
    };
    assert!(rt; log.entries.is_empty());
    Ok(())
}

// Of the assignments, 1 false and 2 and 3 true is the only one.
#[test]
fn the_one_assignment(rt: HostRuntime) -> Result<(), Fail> {
    let alloc = rt.alloc();
    let mut clauses = Vec::new(alloc);
    clauses.push(clause(alloc, &[1, 2])?)?;
    clauses.push(clause(alloc, &[-1, 2])?)?;
    clauses.push(clause(alloc, &[-2, 3])?)?;
    clauses.push(clause(alloc, &[-1, -3])?)?;
    assert!(rt; are_below(3, clauses.as_slice()));
    let found = search(alloc, 3, clauses.as_slice(), 9)?;
    let Found::Assignment(values) = found else {
        return Err("no assignment".into());
    };
    assert_eq!(rt; values.as_slice(), [false, true, true].as_slice());
    Ok(())
}
