//! The placement of a record that is kept by hand.

use crate::place;
use assumption_log::{Kept, Reason, Record};
use core_tree::{Core, CoreFunction, CoreStmt, SiteAt, SiteTable};
use gc0_base::{Decision, Kind, Part, Place, Site};
use gc0_tree::Formula;
use sqlite_items::Items;
use std::alloc::{AllocError, Global};
use std::process::Abort;
use std::test::Fail;

const HERE: Place = Place { line: 1, column: 1 };

const ASKED: Decision = Decision {
    function: 1,
    number: 0,
};

fn site(function: u32, kind: Kind) -> Site {
    Site {
        function,
        kind,
        ordinal: 0,
    }
}

fn formula(alloc: Global) -> Formula {
    Formula {
        imprecise: false,
        parts: Items::new(alloc),
    }
}

fn table(alloc: Global) -> SiteTable {
    SiteTable {
        start: SiteAt {
            place: HERE,
            about: None,
            consumed: 0,
            produced: 0,
        },
        calls: Items::new(alloc),
        returns: Items::new(alloc),
        entry: Items::new(alloc),
        again: Items::new(alloc),
        asserts: Items::new(alloc),
        folds: Items::new(alloc),
        unfolds: Items::new(alloc),
        accesses: Items::new(alloc),
        traps: Items::new(alloc),
    }
}

fn plain_function(alloc: Global, body: Items<CoreStmt>) -> CoreFunction {
    CoreFunction {
        name: Items::new(alloc),
        place: HERE,
        params: 0,
        locals: Items::new(alloc),
        temps: Items::new(alloc),
        result: None,
        before: formula(alloc),
        after: formula(alloc),
        plain: true,
        paths: 1,
        decisions: Items::new(alloc),
        sites: table(alloc),
        body,
    }
}

// The first of three plain functions calls the second one.
fn small_core(alloc: Global) -> Result<Core, AllocError> {
    let mut body = Items::new(alloc);
    body.push(CoreStmt::Call {
        to: None,
        function: 1,
        arguments: Items::new(alloc),
        site: site(0, Kind::Requires),
    })?;
    let mut functions = Items::new(alloc);
    functions.push(plain_function(alloc, body))?;
    functions.push(plain_function(alloc, Items::new(alloc)))?;
    functions.push(plain_function(alloc, Items::new(alloc)))?;
    Ok(Core {
        structs: Items::new(alloc),
        predicates: Items::new(alloc),
        functions,
        main: 0,
        texts: Items::new(alloc),
    })
}

fn entry(
    alloc: Global,
    site: Site,
    decisions: &[(Decision, bool)],
    part: Part,
) -> Result<Kept, AllocError> {
    Ok(Kept {
        site,
        decisions: Items::from_slice(alloc, decisions)?,
        part,
        reason: Reason::Full,
    })
}

// Of three entries at a site one is guarded although its part is kept free, and is left out.
#[test]
fn parts_stand_at_their_sites(rt: HostRuntime) -> Result<(), Fail> {
    let alloc = rt.alloc();
    let here = site(1, Kind::Assert);
    let mut record = Record::new(alloc);
    record.keep(entry(alloc, here, &[(ASKED, true)], Part::Whole)?)?;
    record.keep(entry(alloc, here, &[(ASKED, false)], Part::Value(0))?)?;
    record.keep(entry(alloc, here, &[], Part::Whole)?)?;
    let placement = place(alloc, &small_core(alloc)?, &record)?;
    let [guarded, free] = placement.kept(here) else {
        return Err("not two parts".into());
    };
    assert_eq!(rt; guarded.part, Part::Value(0));
    assert_eq!(rt; guarded.decisions.len(), 1);
    assert_eq!(rt; free.part, Part::Whole);
    assert_eq!(rt; placement.kept(site(1, Kind::Access)).len(), 0);
    assert!(rt; placement.is_tested(ASKED));
    assert!(rt;
        !placement.is_tested(Decision {
            function: 0,
            number: 0
        })
    );
    Ok(())
}

// The second function has an entry, the first one calls it, and the third is apart.
#[test]
fn callers_of_tracked_functions_are_tracked(rt: HostRuntime) -> Result<(), Fail> {
    let alloc = rt.alloc();
    let mut record = Record::new(alloc);
    record.keep(entry(alloc, site(1, Kind::Access), &[], Part::Access)?)?;
    let placement = place(alloc, &small_core(alloc)?, &record)?;
    assert!(rt; placement.is_tracked(0));
    assert!(rt; placement.is_tracked(1));
    assert!(rt; !placement.is_tracked(2));
    assert!(rt; !placement.is_tracked(3));
    Ok(())
}
