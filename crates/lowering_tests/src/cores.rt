//! Cores of texts: what is numbered in them, and where it stands.

use c0_lex::tokens;
use c0_parse::parse;
use c0_types::resolve;
use core_lower::{LowerFault, lower};
use core_tree::{Core, DecisionAt, Origin, Phase, SiteAt, place_at, site_at};
use gc0_base::{Kind, Limits, Place, Site};
use program_limits::Limit;
use std::alloc::Global;
use std::process::Abort;
use std::test::Fail;

// A choice in each clause and in the invariant, `&&`, `if`, `?:` and a loop, and a call within an
// argument of another.
const PICK: &str = "int pick(int x)
//@requires x < 1 ? true : true;
//@ensures \\result < 2 ? true : true;
{
  if (x < 1 && x < 2) return 1;
  while (x < 3 ? true : false)
  //@loop_invariant x < 4 ? true : true;
  { x = x + 1; }
  return 2;
}
int main() { return pick(1 + pick(0)); }
";

// The core of a text, or why there is none. None where the text is no program.
fn lowered(alloc: Global, text: &str) -> Option<Result<Core, LowerFault>> {
    let text = text.as_bytes();
    if text.len() > Limits::SOURCE {
        return None;
    }
    let Ok(tokens) = tokens(alloc, text) else {
        return None;
    };
    let Ok(parsed) = parse(alloc, tokens.as_slice()) else {
        return None;
    };
    let Ok(program) = resolve(alloc, &parsed) else {
        return None;
    };
    Some(lower(alloc, &program))
}

fn place(line: u32, column: u32) -> Place {
    Place { line, column }
}

fn site(function: u32, kind: Kind, ordinal: u32) -> Site {
    Site {
        function,
        kind,
        ordinal,
    }
}

fn branch(at: Place) -> DecisionAt {
    DecisionAt {
        place: at,
        origin: Origin::Branch,
    }
}

fn choice(at: Place, site: Site, phase: Phase) -> DecisionAt {
    DecisionAt {
        place: at,
        origin: Origin::Choice {
            site,
            phase,
            choice: 0,
        },
    }
}

// Decisions in the order of the text, by hand: the start; `&&`, `if` and the first `return`; the
// invariant twice, `?`, the loop, and the invariant at later heads; the last `return`.
#[test]
fn decisions_are_numbered_in_the_order_of_the_text(rt: HostRuntime) -> Result<(), Fail> {
    let Some(Ok(core)) = lowered(rt.alloc(), PICK) else {
        return Err("no core".into());
    };
    let start = site(0, Kind::Start, 0);
    let first = site(0, Kind::Ensures, 0);
    let last = site(0, Kind::Ensures, 1);
    let entry = site(0, Kind::Entry, 0);
    let again = site(0, Kind::Again, 0);
    let wanted = [
        choice(place(2, 19), start, Phase::Produce),
        branch(place(5, 13)),
        branch(place(5, 3)),
        choice(place(3, 24), first, Phase::Consume),
        choice(place(7, 27), entry, Phase::Consume),
        choice(place(7, 27), entry, Phase::Produce),
        branch(place(6, 16)),
        branch(place(6, 3)),
        choice(place(7, 27), again, Phase::Consume),
        choice(place(3, 24), last, Phase::Consume),
    ];
    let [pick, main] = core.functions.as_slice() else {
        return Err("not two functions".into());
    };
    assert_eq!(rt; pick.decisions.as_slice(), wanted.as_slice());
    assert_eq!(rt; main.decisions.len(), 4);
    Ok(())
}

// The outer call is the first in the text, and its decisions come behind those of the inner one.
#[test]
fn sites_are_found_by_their_numbers(rt: HostRuntime) -> Result<(), Fail> {
    let Some(Ok(core)) = lowered(rt.alloc(), PICK) else {
        return Err("no core".into());
    };
    let outer = site(1, Kind::Requires, 0);
    let wanted = SiteAt {
        place: place(11, 21),
        about: Some(0),
        consumed: 2,
        produced: 3,
    };
    assert_eq!(rt; site_at(&core, outer), Some(wanted));
    assert_eq!(rt;
        place_at(&core, site(1, Kind::Requires, 1)),
        Some(place(11, 30))
    );
    assert_eq!(rt; place_at(&core, site(1, Kind::Requires, 2)), None);
    Ok(())
}

// One struct more than the limit.
#[test]
fn programs_past_a_limit_have_no_core(rt: HostRuntime) -> Result<(), Fail> {
    let alloc = rt.alloc();
    let mut text = String::new(alloc);
    for i in 0..513_u32 {
        let part = format!(in alloc; "struct s{i} {{ int v; }};\n")?;
        text.push_str(&part)?;
    }
    text.push_str("int main() { return 0; }\n")?;
    let Some(Err(LowerFault::Limit(limit))) = lowered(alloc, &text) else {
        return Err("no core".into());
    };
    assert_eq!(rt; limit, Limit::Structs);
    Ok(())
}
