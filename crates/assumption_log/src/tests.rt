//! A record kept by hand, and all that is decided in a small core.

use crate::{Kept, Reason, Record, keep_all};
use core_tree::{Core, CoreFunction, CoreStmt, Simple, SiteAt, SiteTable};
use gc0_base::{Decision, Kind, Part, Place, Site};
use gc0_tree::{Conjunct, Expr, ExprForm, Formula};
use sqlite_items::Items;
use std::alloc::{AllocError, Global};
use std::process::Abort;
use std::test::Fail;

const HERE: Place = Place { line: 1, column: 1 };

fn site(kind: Kind) -> Site {
    Site {
        function: 0,
        kind,
        ordinal: 0,
    }
}

fn formula(alloc: Global, parts: u32) -> Result<Formula, AllocError> {
    let mut conjuncts = Items::new(alloc);
    for _part in 0..parts {
        conjuncts.push(Conjunct::Value(Expr {
            place: HERE,
            form: ExprForm::Truth(true),
        }))?;
    }
    Ok(Formula {
        imprecise: false,
        parts: conjuncts,
    })
}

fn table(alloc: Global) -> SiteTable {
    SiteTable {
        start: SiteAt {
            place: HERE,
            about: None,
            consumed: 0,
            produced: 0,
        },
        calls: Items::new(alloc),
        returns: Items::new(alloc),
        entry: Items::new(alloc),
        again: Items::new(alloc),
        asserts: Items::new(alloc),
        folds: Items::new(alloc),
        unfolds: Items::new(alloc),
        accesses: Items::new(alloc),
        traps: Items::new(alloc),
    }
}

// `main` without a conjunct in its `requires`, with one in its `ensures`, and with one access.
fn small_core(alloc: Global) -> Result<Core, AllocError> {
    let mut body = Items::new(alloc);
    body.push(CoreStmt::Load {
        to: 0,
        base: Simple::Local(0),
        of_struct: 0,
        field: 0,
        site: site(Kind::Access),
    })?;
    body.push(CoreStmt::Return {
        value: None,
        site: site(Kind::Ensures),
    })?;
    let mut functions = Items::new(alloc);
    functions.push(CoreFunction {
        name: Items::new(alloc),
        place: HERE,
        params: 0,
        locals: Items::new(alloc),
        temps: Items::new(alloc),
        result: None,
        before: formula(alloc, 0)?,
        after: formula(alloc, 1)?,
        plain: true,
        paths: 1,
        decisions: Items::new(alloc),
        sites: table(alloc),
        body,
    })?;
    Ok(Core {
        structs: Items::new(alloc),
        predicates: Items::new(alloc),
        functions,
        main: 0,
        texts: Items::new(alloc),
    })
}

#[test]
fn a_part_is_told_once(rt: HostRuntime) -> Result<(), Fail> {
    let alloc = rt.alloc();
    let here = site(Kind::Assert);
    let known = [(
        Decision {
            function: 0,
            number: 3,
        },
        true,
    )];
    let mut record = Record::new(alloc);
    record.keep(Kept {
        site: here,
        decisions: Items::new(alloc),
        part: Part::Whole,
        reason: Reason::Full,
    })?;
    record.keep(Kept {
        site: here,
        decisions: Items::from_slice(alloc, &known)?,
        part: Part::Value(1),
        reason: Reason::Paths,
    })?;
    record.keep(Kept {
        site: here,
        decisions: Items::from_slice(alloc, &known)?,
        part: Part::Whole,
        reason: Reason::Separate,
    })?;
    let free = record.parts_at(alloc, here, &[])?;
    assert_eq!(rt; free.as_slice(), [Part::Whole].as_slice());
    let both = record.parts_at(alloc, here, &known)?;
    assert_eq!(rt; both.as_slice(), [Part::Whole, Part::Value(1)].as_slice());
    assert_eq!(rt; record.count(alloc)?, 2);
    Ok(())
}

#[test]
fn all_that_is_decided_is_kept(rt: HostRuntime) -> Result<(), Fail> {
    let alloc = rt.alloc();
    let core = small_core(alloc)?;
    let record = keep_all(alloc, &core, Reason::Full)?;
    assert_eq!(rt; record.entries.len(), 2);
    let access = record.parts_at(alloc, site(Kind::Access), &[])?;
    assert_eq!(rt; access.as_slice(), [Part::Access].as_slice());
    let end = record.parts_at(alloc, site(Kind::Ensures), &[])?;
    assert_eq!(rt; end.as_slice(), [Part::Whole].as_slice());
    Ok(())
}
