//! The verdicts on small logs, and a log that is long.
use crate::{Clause, Entries, Entry, Hints, Lit, Lits, Log, Scratch, Verdict, are_below, check};
use std::alloc::{AllocError, Global};
use std::process::Abort;
use std::test::Fail;

/// A literal as the DIMACS format writes it: variable 0 is 1, and a minus negates.
fn lit(written: i32) -> Lit {
    Lit {
        variable: written.unsigned_abs().saturating_sub(1),
        positive: written > 0,
    }
}

fn clause(alloc: Global, written: &[i32]) -> Result<Clause, AllocError> {
    let mut lits = Lits::new(alloc);
    for number in written {
        lits.push(lit(*number))?;
    }
    Ok(Clause { lits })
}

fn entry(alloc: Global, written: &[i32], hints: &[u32]) -> Result<Entry, AllocError> {
    Ok(Entry {
        clause: clause(alloc, written)?,
        hints: Hints::from_vec(Vec::from_slice(alloc, hints)?),
    })
}

/// The four clauses over two variables, which no assignment satisfies.
fn all_of_two(alloc: Global) -> Result<Vec<Clause>, AllocError> {
    let mut clauses = Vec::new(alloc);
    clauses.push(clause(alloc, &[1, 2])?)?;
    clauses.push(clause(alloc, &[1, -2])?)?;
    clauses.push(clause(alloc, &[-1, 2])?)?;
    clauses.push(clause(alloc, &[-1, -2])?)?;
    Ok(clauses)
}

/// The verdict on a log over the four clauses.
fn verdict(rt: &impl Abort, alloc: Global, log: &Log) -> Result<Verdict, AllocError> {
    let clauses = all_of_two(alloc)?;
    let mut scratch = Scratch::new(alloc, 2)?;
    assert!(rt; are_below(2, clauses.as_slice()));
    assert!(rt; log.is_below(2));
    Ok(check(2, clauses.as_slice(), log, &mut scratch))
}

#[test]
fn small_logs(rt: HostRuntime) -> Result<(), Fail> {
    let alloc = rt.alloc();
    let mut log = Log {
        entries: Entries::new(alloc),
    };
    assert_eq!(rt; verdict(&rt, alloc, &log)?, Verdict::Derived(0));
    log.entries.push(entry(alloc, &[1], &[0, 1])?)?;
    assert_eq!(rt; verdict(&rt, alloc, &log)?, Verdict::Derived(1));
    log.entries.push(entry(alloc, &[], &[4, 2, 3])?)?;
    assert_eq!(rt; verdict(&rt, alloc, &log)?, Verdict::Refuted);
    Ok(())
}

#[test]
fn faults(rt: HostRuntime) -> Result<(), Fail> {
    let alloc = rt.alloc();
    let mut last_hint = Log {
        entries: Entries::new(alloc),
    };
    last_hint.entries.push(entry(alloc, &[1], &[0, 1])?)?;
    last_hint.entries.push(entry(alloc, &[], &[4, 2, 1])?)?;
    assert_eq!(rt; verdict(&rt, alloc, &last_hint)?, Verdict::Fault(1));
    let mut unknown = Log {
        entries: Entries::new(alloc),
    };
    unknown.entries.push(entry(alloc, &[], &[7])?)?;
    assert_eq!(rt; verdict(&rt, alloc, &unknown)?, Verdict::Fault(0));
    let mut tautology = Log {
        entries: Entries::new(alloc),
    };
    tautology.entries.push(entry(alloc, &[1, -1], &[0])?)?;
    assert_eq!(rt; verdict(&rt, alloc, &tautology)?, Verdict::Fault(0));
    Ok(())
}

// Each entry repeats what it stands on, a literal twice, and the whole is dropped at the end.
#[test]
fn a_long_log(rt: HostRuntime) -> Result<(), Fail> {
    let alloc = rt.alloc();
    let mut log = Log {
        entries: Entries::new(alloc),
    };
    for _ in 0..100_000 {
        log.entries.push(entry(alloc, &[1, 1], &[0, 1])?)?;
    }
    assert_eq!(rt; verdict(&rt, alloc, &log)?, Verdict::Derived(100_000));
    Ok(())
}

#[test]
fn lists_give_back(rt: HostRuntime) -> Result<(), Fail> {
    let alloc = rt.alloc();
    let lits = clause(alloc, &[1, -2, 3, -4, 5])?.lits;
    assert_eq!(rt; lits.len(), 5);
    assert!(rt; !lits.is_empty());
    let items = Lits::from_vec(lits.into_vec()?).into_vec()?;
    assert_eq!(rt;
        items.as_slice(),
        [lit(1), lit(-2), lit(3), lit(-4), lit(5)].as_slice()
    );
    let entry = entry(alloc, &[-1], &[3, 1])?;
    assert_eq!(rt;
        Hints::from_vec(entry.hints.into_vec()).as_slice(),
        [3, 1].as_slice()
    );
    let entries = Entries::from_vec(Entries::new(alloc).into_vec());
    assert_eq!(rt; entries.len(), 0);
    assert!(rt; entries.is_empty());
    assert_eq!(rt; lit(1).opposite(), lit(-1));
    Ok(())
}
