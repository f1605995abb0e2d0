//! What runs write and answer, and what words, files and devices that fail lead to.

use gc0_io::{MemFiles, MemSink, MemSource};
use gradual_top::{each_verdict, gradual, one_verdict};
use std::process::Abort;
use std::test::Fail;

// Which calls are to fail: of the files, of `out` and of `err`.
pub type Failing = (Option<u64>, Option<u64>, Option<u64>);

pub const NONE: Failing = (None, None, None);

/// Calls `gradual` with these words, where the file `a.c0` has this text, and compares what
/// is written and the status.
pub fn row(
    rt: &(impl Abort + AllocGlobal),
    words: &[&str],
    text: &[u8],
    failing: Failing,
    wanted: (&str, &str, u8),
) -> Result<(), Fail> {
    let alloc = rt.alloc();
    let mut files = MemFiles::new(alloc);
    files.add("a.c0", text)?;
    let mut input = MemSource::new(alloc, b"", 1)?;
    let mut out = MemSink::new(alloc, 1000)?;
    let mut err = MemSink::new(alloc, 1000)?;
    if let Some(call) = failing.0 {
        files.fail_at(call)?;
    }
    if let Some(call) = failing.1 {
        out.fail_at(call)?;
    }
    if let Some(call) = failing.2 {
        err.fail_at(call)?;
    }
    let mut given = Vec::new(alloc);
    for word in words {
        given.push(String::from_str(alloc, word)?)?;
    }
    let answer = gradual(alloc, &given, &mut files, &mut input, &mut out, &mut err);
    assert_eq!(rt; out.taken(), wanted.0.as_bytes());
    assert_eq!(rt; err.taken(), wanted.1.as_bytes());
    assert_eq!(rt; answer.code(), wanted.2);
    Ok(())
}

/// Each of these texts is refused with its line.
pub fn refused(rt: &(impl Abort + AllocGlobal), rows: &[(&str, &str)]) -> Result<(), Fail> {
    for (text, line) in rows {
        row(rt, &["run", "a.c0"], text.as_bytes(), NONE, ("", line, 4))?;
    }
    Ok(())
}

#[test]
fn programs_are_run_or_refused(rt: HostRuntime) -> Result<(), Fail> {
    one_verdict();
    each_verdict();
    let half =
        "int half(int x)\n//@requires 0 <= x;\n//@ensures \\result <= x;\n{\n  int h = 0;\n  while (h + h < x)\n  //@loop_invariant h <= x;\n  { h = h + 1; }\n  return h;\n}\nint main() {\n  int a = half(7);\n  int b = half(-1);\n  return a;\n}\n";
    let rows = [
        ("int main() { return 42; }", ("", "result 42\n", 0)),
        (
            "int main() { printint(2147483647 + 1); return 0; }",
            ("-2147483648", "result 0\n", 0),
        ),
        ("", ("", "refused 1:1 no main\n", 4)),
        (half, ("", "stopped 13:11 requires half\n", 1)),
        (
            "int main() {\n  int x = 6;\n  //@assert x * 7 == 42;\n  //@assert x < 6;\n  return x;\n}\n",
            ("", "stopped 4:6 assert\n", 1),
        ),
        (
            "int f(bool b)\n//@ensures \\result < 1;\n{ if (b) { return 1; } return 0; }\nint main() { int x = f(false); printint(x); x = f(true); return x; }",
            ("0", "stopped 3:12 ensures f\n", 1),
        ),
        ("int main() { return 7 / 2; }", ("", "not built 1:23\n", 14)),
        (
            "int main() { printbool(!(1 == 2)); return 0; }",
            ("true", "result 0\n", 0),
        ),
    ];
    for (text, wanted) in rows {
        row(&rt, &["run", "a.c0"], text.as_bytes(), NONE, wanted)?;
    }
    Ok(())
}

#[test]
fn a_run_takes_exactly_its_steps(rt: HostRuntime) -> Result<(), Fail> {
    let forever = b"int main() { while (true) { printint(7); } return 0; }";
    let used = |out| (out, "steps used\n", 3);
    row(
        &rt,
        &["run", "--steps", "0", "a.c0"],
        forever,
        NONE,
        used(""),
    )?;
    row(
        &rt,
        &["run", "--steps", "3", "a.c0"],
        forever,
        NONE,
        used(""),
    )?;
    row(
        &rt,
        &["run", "--steps", "5", "a.c0"],
        forever,
        NONE,
        used("7"),
    )?;
    let counting =
        b"int main() {\n  int i = 0;\n  while (i < 5)\n  //@loop_invariant ? && i < 3;\n  { printint(i); i = i + 1; }\n  return 0;\n}\n";
    let stopped = ("012", "stopped 3:3 loop_invariant\n", 1);
    row(&rt, &["run", "a.c0"], counting, NONE, stopped)?;
    row(
        &rt,
        &["run", "--steps", "14", "a.c0"],
        counting,
        NONE,
        stopped,
    )?;
    row(
        &rt,
        &["run", "--steps", "13", "a.c0"],
        counting,
        NONE,
        used("012"),
    )
}

#[test]
fn words_and_files_are_refused(rt: HostRuntime) -> Result<(), Fail> {
    let usage = (
        "",
        "usage: run, full, check, explain, code, compare or self\n",
        64,
    );
    let text = b"int main() { return 1; }";
    row(&rt, &["run", "--steps=5", "a.c0"], text, NONE, usage)?;
    row(&rt, &["run", "--steps", "05", "a.c0"], text, NONE, usage)?;
    row(
        &rt,
        &["run", "--steps", "10000001", "a.c0"],
        text,
        NONE,
        usage,
    )?;
    row(&rt, &["run", "--a.c0"], text, NONE, usage)?;
    row(&rt, &["run", "b.c0"], text, NONE, ("", "absent b.c0\n", 8))?;
    let mut long = Vec::new(rt.alloc());
    for _ in 0..262145 {
        long.push(b' ')?;
    }
    row(
        &rt,
        &["run", "a.c0"],
        &long,
        NONE,
        ("", "limit source\n", 7),
    )
}

#[test]
fn each_device_fails_once(rt: HostRuntime) -> Result<(), Fail> {
    let text = b"int main() { printint(1); printint(2); return 0; }";
    let words = ["run", "a.c0"];
    row(
        &rt,
        &words,
        text,
        (None, Some(1), None),
        ("1", "write fault\n", 10),
    )?;
    row(
        &rt,
        &words,
        text,
        (Some(0), None, None),
        ("", "read fault\n", 9),
    )?;
    row(&rt, &words, text, (None, None, Some(0)), ("12", "", 10))
}
