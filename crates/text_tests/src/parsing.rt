//! Tests of `c0_parse`: the first fault of the tokens of a text, or none.

use c0_lex::tokens;
use c0_parse::parse;
use gc0_base::Limits;
use std::alloc::{AllocError, Global};
use std::test::Fail;

// What the parser says of a text: that it is read, or its fault and where it stands.
fn told(alloc: Global, text: &str) -> Result<String, AllocError> {
    let source = text.as_bytes();
    if source.len() > Limits::SOURCE {
        return String::from_str(alloc, "too long");
    }
    match tokens(alloc, source) {
        Ok(list) => match parse(alloc, list.as_slice()) {
            Ok(_) => String::from_str(alloc, "read"),
            Err(fault) => format!(in alloc; "{fault}"),
        },
        Err(fault) => format!(in alloc; "{fault}"),
    }
}

// Texts, and what is wrong with them first.
const TEXTS: [(&str, &str); 31] = [
    ("", "read"),
    ("#use <conio>\nint main() { return 0; }", "read"),
    (
        "typedef int t; struct t { t t; }; t f(t a); int main() { return 0; }",
        "read",
    ),
    (
        "int main() { if (true) if (false) return 1; else return 2; ((x)) = f(\"a\"); }",
        "read",
    ),
    (
        "int main() { for (int i = 0; i < 3; i++) /*@ @*/ /*@loop_invariant ?; @*/ { } return 0; }",
        "read",
    ),
    (
        "struct s { int v; }; /*@predicate q(struct s* p) = acc(p->v) && (p->v == 1 || p->v == 2 || q(p)); @*/",
        "read",
    ),
    ("int f() /*@ @*/; int main() { return 0; }", "read"),
    ("#use <stdio>", "syntax fault at 1:7"),
    ("int main() { return 1;", "syntax fault at 1:23"),
    ("int main() { return (1; }", "syntax fault at 1:23"),
    (
        "int main() { if (true) else return 1; }",
        "syntax fault at 1:24",
    ),
    (
        "int main() { if (true) int x; return 0; }",
        "syntax fault at 1:24",
    ),
    (
        "int main() { if (true) /*@ @*/ return 0; }",
        "syntax fault at 1:28",
    ),
    ("int main() { f() = 2; }", "syntax fault at 1:18"),
    ("int main() { x + 1 = 2; }", "syntax fault at 1:20"),
    ("int main() { x++ + 1; }", "syntax fault at 1:18"),
    ("int main() { print(\"a\" + 1); }", "syntax fault at 1:24"),
    (
        "int main() { while (true) { break; } }",
        "syntax fault at 1:29",
    ),
    (
        "typedef int t; int main() { return t; }",
        "syntax fault at 1:36",
    ),
    ("int f(int a,) { return a; }", "syntax fault at 1:13"),
    (
        "int f(int a) /*@requires a / 2 == 0; @*/ { return a; }",
        "syntax fault at 1:28",
    ),
    (
        "int f(struct s* p) /*@requires (p)->v == 1; @*/ { return 0; }",
        "syntax fault at 1:35",
    ),
    (
        "int main() { return ((((((((((((((((((((((((((((((((((((((((((((((((((((((((((((((((((((((((((((((((((((((((((((((((((1)))))))))))))))))))))))))))))))))))))))))))))))))))))))))))))))))))))))))))))))))))))))))))))))))); }",
        "read",
    ),
    (
        "int main() { return (((((((((((((((((((((((((((((((((((((((((((((((((((((((((((((((((((((((((((((((((((((((((((((((((((1))))))))))))))))))))))))))))))))))))))))))))))))))))))))))))))))))))))))))))))))))))))))))))))))))); }",
        "too deep at 1:119",
    ),
    (
        "int f(int a) /*@ @*/ /*@requires a == 1; @*/; int main() { return 0; }",
        "contract on prototype at 1:25",
    ),
    (
        "struct s { int v; }; int f(struct s* p) /*@ensures !(p->v == 1 && true); @*/;",
        "contract on prototype at 1:44",
    ),
    (
        "struct s { int v; }; int f(struct s* p) /*@requires ? && !(p->v == 1 && true); @*/ { return 0; } int main() { return 0; }",
        "deep read at 1:61",
    ),
    (
        "struct s { int v; }; /*@predicate q(struct s* p) = (1 < p->v) && !(true || p->v == 1); @*/ int f() /*@requires true; @*/;",
        "deep read at 1:77",
    ),
    (
        "struct s { int v; }; int f(struct s* p) /*@ensures (p->v == 1 || true) ? true : false; @*/ { }",
        "deep read at 1:54",
    ),
    (
        "struct s { int v; }; int f(struct s* p) { while (true) /*@loop_invariant p->v == 1 ? true : 0 == (true ? 1 : p->v); @*/ { } }",
        "deep read at 1:111",
    ),
    (
        "struct s { int v; }; int f(struct s* p) { /*@assert p->v == 1 || true; fold q(true && p->v == 1); @*/ return 0; }",
        "deep read at 1:88",
    ),
];

#[test]
fn names_the_first_fault(rt: HostRuntime) -> Result<(), Fail> {
    let alloc = rt.alloc();
    for (text, want) in TEXTS.iter() {
        let got = told(alloc, text)?;
        assert_eq!(rt; got.as_str(), *want, "at {text}");
    }
    Ok(())
}
