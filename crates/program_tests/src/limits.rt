//! Texts at the limits of counts, and past them by one.

use crate::running::{NONE, row};
use std::alloc::{AllocError, Global};
use std::process::Abort;
use std::test::Fail;

const MAIN: &str = "int main() { return 0; }";

// A text of parts: what stands before them, in each before and behind its number, and behind them.
type Parts = (&'static str, &'static str, &'static str, &'static str);

// The parts, how many of them are within the limit, the line of one more, and what is said of the
// text within: its line and the status.
static COUNTS: [(Parts, u32, &str, (&str, u8)); 6] = [
    (
        ("", "struct s", " { int v; }; ", MAIN),
        512,
        "limit structs\n",
        ("not built 1:1\n", 14),
    ),
    (
        ("", "/*@ predicate p", "() = true; @*/ ", MAIN),
        512,
        "limit predicates\n",
        ("not built 1:1\n", 14),
    ),
    // `main` is the last of them.
    (
        ("", "int f", "() { return 0; } ", MAIN),
        511,
        "limit functions\n",
        ("result 0\n", 0),
    ),
    (
        (
            "struct t { int v; }; struct s { ",
            "int f",
            "; ",
            "}; int main() { return 0; }",
        ),
        64,
        "limit fields\n",
        ("not built 1:1\n", 14),
    ),
    (
        ("int main() { ", "int x", " = 0; ", "return 0; }"),
        128,
        "limit locals main\n",
        ("result 0\n", 0),
    ),
    // Parameters count.
    (
        (
            "int f(int a, bool b) { ",
            "int x",
            " = 0; ",
            "return 0; } int main() { return 0; }",
        ),
        126,
        "limit locals f\n",
        ("result 0\n", 0),
    ),
];

fn parts_text(alloc: Global, parts: Parts, count: u32) -> Result<String, AllocError> {
    let (head, before, behind, end) = parts;
    let mut text = String::from_str(alloc, head)?;
    for number in 0..count {
        let part = format!(in alloc; "{before}{number}{behind}")?;
        text.push_str(part.as_str())?;
    }
    text.push_str(end)?;
    Ok(text)
}

#[test]
fn counts_have_limits(rt: HostRuntime) -> Result<(), Fail> {
    for (parts, most, line, within) in &COUNTS {
        let text = parts_text(rt.alloc(), *parts, *most)?;
        let wanted = ("", within.0, within.1);
        row(&rt, &["run", "a.c0"], text.as_bytes(), NONE, wanted)?;
        let text = parts_text(rt.alloc(), *parts, most.saturating_add(1))?;
        let wanted = ("", *line, 7);
        row(&rt, &["run", "a.c0"], text.as_bytes(), NONE, wanted)?;
    }
    Ok(())
}

// A sum of 1,023 ones and so many more: 31 sums in parentheses of 33 ones each, and the rest, so
// that it isn't deep.
fn sum_text(alloc: Global, more: u32) -> Result<String, AllocError> {
    let mut ones = String::from_str(alloc, "(1")?;
    for _ in 1..33 {
        ones.push_str(" + 1")?;
    }
    ones.push_str(")")?;
    let mut sum = String::from_str(alloc, ones.as_str())?;
    for _ in 1..31 {
        sum.push_str(" + ")?;
        sum.push_str(ones.as_str())?;
    }
    for _ in 0..more {
        sum.push_str(" + 1")?;
    }
    Ok(sum)
}

// What stands round a sum of 1,025 or 1,026 ones, and what is said. The first has 1,024 operators,
// as many as one statement or test may have temporaries.
static TEMPORARIES: [(&str, u32, &str, (&str, u8)); 5] = [
    ("int main() { return ", 2, "; }", ("result 1025\n", 0)),
    (
        "int main() { return ",
        3,
        "; }",
        ("limit temporaries main\n", 7),
    ),
    (
        "int f() { int x = ",
        3,
        "; return x; } int main() { return 0; }",
        ("limit temporaries f\n", 7),
    ),
    (
        "int main() { while (",
        2,
        " == 0) { } return 0; }",
        ("limit temporaries main\n", 7),
    ),
    // Each statement has its own.
    (
        "int main() { int x = 1 + 1 + 1; int y = ",
        2,
        "; return x + y; }",
        ("result 1028\n", 0),
    ),
];

#[test]
fn temporaries_have_a_limit(rt: HostRuntime) -> Result<(), Fail> {
    for (head, more, end, wanted) in &TEMPORARIES {
        let sum = sum_text(rt.alloc(), *more)?;
        let text = format!(in rt.alloc(); "{head}{sum}{end}")?;
        let wanted = ("", wanted.0, wanted.1);
        row(&rt, &["run", "a.c0"], text.as_bytes(), NONE, wanted)?;
    }
    Ok(())
}

#[test]
fn limits_come_in_order_behind_framing(rt: HostRuntime) -> Result<(), Fail> {
    // Too many fields, and behind them a read without its `acc`.
    let unframed = (
        "struct s { ",
        "int f",
        "; ",
        "};\nvoid f(struct s* p) /*@ requires p->f1 == 1; @*/ { } int main() { return 0; }",
    );
    let text = parts_text(rt.alloc(), unframed, 65)?;
    let wanted = ("", "refused 2:35 not framed\n", 4);
    row(&rt, &["run", "a.c0"], text.as_bytes(), NONE, wanted)?;
    // Too many functions, of which the first has too many locals.
    let locals = parts_text(
        rt.alloc(),
        ("int f() { ", "int x", " = 0; ", "return 0; } "),
        129,
    )?;
    let functions = parts_text(rt.alloc(), ("", "int f", "() { return 0; } ", MAIN), 511)?;
    let text = format!(in rt.alloc(); "{locals}{functions}")?;
    let wanted = ("", "limit functions\n", 7);
    row(&rt, &["run", "a.c0"], text.as_bytes(), NONE, wanted)
}
