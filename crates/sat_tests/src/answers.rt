//! The call over files in memory: answers, bad files, words, and each device failing once.
use crate::memory::MemTarget;
use gc0_io::{MemFiles, MemSink};
use sat_top::{Status, solve};
use std::alloc::AllocError;
use std::process::Abort;
use std::test::Fail;

// Which calls are to fail: of the files, of the proof, of `out` and of `err`.
type Failing = (Option<u64>, bool, Option<u64>, Option<u64>);

const NONE: Failing = (None, false, None, None);

// What a call is to leave: `out`, `err`, the file `p` and the status.
type Wanted<'a> = (&'a str, &'a str, &'a str, u8);

// Calls `solve` with these words, where the file `f` has this text.
fn row(
    rt: &(impl Abort + AllocGlobal),
    words: &[&str],
    text: &[u8],
    failing: Failing,
    wanted: Wanted<'_>,
) -> Result<(), Fail> {
    let alloc = rt.alloc();
    let mut files = MemFiles::new(alloc);
    files.add("f", text)?;
    let mut proof = MemTarget::new(alloc, failing.1);
    let mut out = MemSink::new(alloc, 1000)?;
    let mut err = MemSink::new(alloc, 1000)?;
    if let Some(call) = failing.0 {
        files.fail_at(call)?;
    }
    if let Some(call) = failing.2 {
        out.fail_at(call)?;
    }
    if let Some(call) = failing.3 {
        err.fail_at(call)?;
    }
    let given = strings(rt, words)?;
    let answer = solve(alloc, &given, &mut files, &mut proof, &mut out, &mut err);
    assert_eq!(rt; out.taken(), wanted.0.as_bytes());
    assert_eq!(rt; err.taken(), wanted.1.as_bytes());
    assert_eq!(rt; proof.bytes(), wanted.2.as_bytes());
    assert_eq!(rt; answer.code(), wanted.3);
    Ok(())
}

fn strings(rt: &impl AllocGlobal, words: &[&str]) -> Result<Vec<String>, AllocError> {
    let alloc = rt.alloc();
    let mut given = Vec::new(alloc);
    for word in words {
        given.push(String::from_str(alloc, word)?)?;
    }
    Ok(given)
}

const ONE: &str = "c three variables\np cnf 3 4\n1 2 0 -1 2 0\n-2 3\n 0\nc a comment\n-1 -3 0\n";

const PAIR: &str = "p cnf 1 2\n1 0\n-1 0\n";

#[test]
fn formulas_are_answered(rt: HostRuntime) -> Result<(), Fail> {
    let no = "s UNSATISFIABLE\n";
    let rows = [
        (ONE, ("s SATISFIABLE\nv -1 2 3 0\n", "", "", 10)),
        ("p cnf 0 0\n", ("s SATISFIABLE\nv 0\n", "", "", 10)),
        ("p cnf 0 0", ("s SATISFIABLE\nv 0\n", "", "", 10)),
        (
            "\n \np\tcnf 1 1\r\n1 0\r\n",
            ("s SATISFIABLE\nv 1 0\n", "", "", 10),
        ),
        ("p cnf 1 1\n-1 0", ("s SATISFIABLE\nv -1 0\n", "", "", 10)),
        (PAIR, (no, "", "3 0 1 2 0\n", 20)),
        ("p cnf 1 1\n0\n", (no, "", "2 0 1 0\n", 20)),
    ];
    for (text, wanted) in rows {
        row(&rt, &["f", "p"], text.as_bytes(), NONE, wanted)?;
    }
    row(&rt, &["f"], PAIR.as_bytes(), NONE, (no, "", "", 20))?;
    let four = b"p cnf 2 4\n1 2 0\n1 -2 0\n-1 2 0\n-1 -2 0\n";
    row(
        &rt,
        &["--conflicts", "0", "f", "p"],
        four,
        NONE,
        ("s UNKNOWN\n", "", "", 0),
    )?;
    row(
        &rt,
        &["--conflicts", "9", "f"],
        four,
        NONE,
        (no, "", "", 20),
    )
}

#[test]
fn bad_files_are_told(rt: HostRuntime) -> Result<(), Fail> {
    let rows = [
        ("", 1),
        ("c only\n", 2),
        ("p cnf 1\n1 0\n", 1),
        ("p cnf 1 1 1\n1 0\n", 1),
        ("p dnf 1 1\n1 0\n", 1),
        ("1 0\n", 1),
        ("p cnf 01 1\n1 0\n", 1),
        ("p cnf 1000001 0\n", 1),
        ("p cnf 1 4294967296\n", 1),
        ("p cnf 1 1\n1 0\n1 0\n", 3),
        ("p cnf 1 1\n1 0 1\n", 2),
        ("p cnf 1 2\n1 0\n", 3),
        ("p cnf 1 1\n1\n", 3),
        ("p cnf 1 1\n\n2 0\n", 3),
        ("p cnf 1 1\n-2 0\n", 2),
        ("p cnf 9 1\n99999999999999999999 0\n", 2),
        ("p cnf 1 1\n-0\n", 2),
        ("p cnf 1 1\n+1 0\n", 2),
        ("p cnf 1 1\n1x 0\n", 2),
        ("p cnf 1 1\n- 1 0\n", 2),
        ("p cnf 1 1\n1 0\n%\n0\n", 3),
        ("p cnf 1 1\np cnf 1 1\n1 0\n", 2),
    ];
    for (text, line) in rows {
        let told = format!(in rt.alloc(); "bad line {line}\n")?;
        row(
            &rt,
            &["f", "p"],
            text.as_bytes(),
            NONE,
            ("", told.as_str(), "", 4),
        )?;
    }
    Ok(())
}

#[test]
fn words_and_files_are_refused(rt: HostRuntime) -> Result<(), Fail> {
    let usage = ("", "usage: sat_cli [--conflicts N] CNF [PROOF]\n", "", 64);
    let text = PAIR.as_bytes();
    row(&rt, &["--conflicts", "1"], text, NONE, usage)?;
    row(&rt, &["--conflicts", "01", "f"], text, NONE, usage)?;
    row(&rt, &["--conflicts", "4294967296", "f"], text, NONE, usage)?;
    row(&rt, &["--steps", "1", "f"], text, NONE, usage)?;
    row(&rt, &["f", "--p"], text, NONE, usage)?;
    row(&rt, &[], text, NONE, usage)?;
    row(&rt, &["g"], text, NONE, ("", "absent g\n", "", 8))
}

#[test]
fn each_device_fails_once(rt: HostRuntime) -> Result<(), Fail> {
    let text = PAIR.as_bytes();
    let words = ["f", "p"];
    let write = |out, file| (out, "write fault\n", file, 11);
    row(
        &rt,
        &words,
        text,
        (Some(0), false, None, None),
        ("", "read fault\n", "", 9),
    )?;
    row(&rt, &words, text, (None, true, None, None), write("", ""))?;
    row(
        &rt,
        &words,
        text,
        (None, false, Some(0), None),
        write("", "3 0 1 2 0\n"),
    )?;
    row(
        &rt,
        &["g"],
        text,
        (None, false, None, Some(0)),
        ("", "", "", 11),
    )
}

// Values fill the lines: as many words as go into 78 columns.
#[test]
fn values_in_lines(rt: HostRuntime) -> Result<(), Fail> {
    let alloc = rt.alloc();
    let mut files = MemFiles::new(alloc);
    files.add("f", b"p cnf 30 1\n30 0\n")?;
    let mut proof = MemTarget::new(alloc, false);
    let mut out = MemSink::new(alloc, 1000)?;
    let mut err = MemSink::new(alloc, 1000)?;
    let given = strings(&rt, &["f"])?;
    let answer = solve(alloc, &given, &mut files, &mut proof, &mut out, &mut err);
    assert_eq!(rt; answer, Status::Satisfiable);
    let mut longest = 0u64;
    let mut column = 0u64;
    for byte in out.taken() {
        if *byte == b'\n' {
            column = 0;
        } else {
            column = column.saturating_add(1);
        }
        longest = longest.max(column);
    }
    assert!(rt; longest <= 78);
    assert!(rt; out.taken().ends_with(b" 30 0\n"));
    Ok(())
}
