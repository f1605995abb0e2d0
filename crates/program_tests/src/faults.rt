//! Texts with a fault of each kind, and how they are refused.

use crate::running::{NONE, refused, row};
use std::test::Fail;

// Each text is refused with this line. Places and causes were worked out by hand from the rules in
// docs/language.md.
static LEXICAL: [(&str, &str); 16] = [
    ("/* open", "refused 1:1 open comment\n"),
    (
        "/* a /* b */ c */ int main() { return 08; }",
        "refused 1:39 bad number\n",
    ),
    ("int main() { return 1 $ 2; }", "refused 1:23 bad byte\n"),
    ("int main() { return 0; }\n #", "refused 2:2 bad byte\n"),
    ("int main() { return 0x; }", "refused 1:21 bad number\n"),
    (
        "int main() { return 2147483649; }",
        "refused 1:21 bad number\n",
    ),
    (
        "int main() { return 0x123456789; }",
        "refused 1:21 bad number\n",
    ),
    ("int main() { return 1a; }", "refused 1:21 bad number\n"),
    (
        "int main() { print(\"a\\q\"); return 0; }",
        "refused 1:22 bad escape\n",
    ),
    (
        "int main() { print(\"\\n\\x\"); return 0; }",
        "refused 1:23 bad escape\n",
    ),
    (
        "int main() { error(\"\\\"); }",
        "refused 1:20 open string\n",
    ),
    (
        "int main() { print(\"a); return 0; }",
        "refused 1:20 open string\n",
    ),
    (
        "int main() { return 0; } /* a /* b */",
        "refused 1:26 open comment\n",
    ),
    ("/*@ int", "refused 1:1 open comment\n"),
    (
        "/*@ /*@ @*/ int main() { return 0; }",
        "refused 1:5 nested annotation\n",
    ),
    ("//@requires //@ensures", "refused 1:13 nested annotation\n"),
];

static GRAMMAR: [(&str, &str); 20] = [
    ("int main() { return 1;", "refused 1:23 syntax\n"),
    ("int main() { return 1 }", "refused 1:23 syntax\n"),
    (
        "int main() { if (true) else return 1; }",
        "refused 1:24 syntax\n",
    ),
    ("int main() { 1 = 2; }", "refused 1:16 syntax\n"),
    (
        "int main() { if (true) int x = 1; return 0; }",
        "refused 1:24 syntax\n",
    ),
    ("int main() { for (;;) { } }", "refused 1:20 syntax\n"),
    (
        "typedef int t; int main() { int t = 1; return 0; }",
        "refused 1:33 syntax\n",
    ),
    ("int main() { return f(1,); }", "refused 1:25 syntax\n"),
    (
        "int main() { //@assert x / 2 == 1;\n return 0; }",
        "refused 1:26 syntax\n",
    ),
    (
        "int main() { //@assert f(1) + 1 == 2;\n return 0; }",
        "refused 1:29 syntax\n",
    ),
    (
        "int f(int x) { return x; } int main() { return f(1)(2); }",
        "refused 1:52 syntax\n",
    ),
    ("int main() { break; return 0; }", "refused 1:14 syntax\n"),
    (
        "struct s { int v; } int main() { return 0; }",
        "refused 1:21 syntax\n",
    ),
    ("int main(int) { return 0; }", "refused 1:13 syntax\n"),
    (
        "#use <stdio>\nint main() { return 0; }",
        "refused 1:7 syntax\n",
    ),
    (
        "int f(int x) /*@requires 0 < x; @*/ ; int main() { return 0; }",
        "refused 1:17 contract on prototype\n",
    ),
    (
        "int f() /*@ensures true; @*/ /*@ensures true; @*/ ; int main() { return 0; }",
        "refused 1:12 contract on prototype\n",
    ),
    (
        "struct s { int v; }; int f(struct s* p) /*@requires ? && !(p->v == 1 && true); @*/ { return 0; } int main() { return 0; }",
        "refused 1:61 deep read\n",
    ),
    (
        "struct s { int v; }; int f(struct s* p) /*@requires ? && !(true || p->v == 1); @*/ { return 0; } int main() { return 0; }",
        "refused 1:69 deep read\n",
    ),
    (
        "struct s { int v; }; int f(struct s* p) /*@requires ? && (p->v == 1 ? true : true) == true; @*/ { return 0; } int main() { return 0; }",
        "refused 1:60 deep read\n",
    ),
];

static UNKNOWN: [(&str, &str); 12] = [
    (
        "int main() { int x = x; return x; }",
        "refused 1:22 unknown\n",
    ),
    ("int main() { x = 1; return 0; }", "refused 1:14 unknown\n"),
    (
        "int main() { if (true) { int y = 1; } return y; }",
        "refused 1:46 unknown\n",
    ),
    (
        "int main() { for (int i = 0; i < 3; i++) { } return i; }",
        "refused 1:53 unknown\n",
    ),
    ("int main() { return g(1); }", "refused 1:21 unknown\n"),
    ("int main() { return g(1, y); }", "refused 1:26 unknown\n"),
    (
        "int g(int a); int main() { return g(1); }",
        "refused 1:35 unknown\n",
    ),
    (
        "struct s { int v; bool b; struct s* n; }; int main() { struct s* p = NULL; return p->w; }",
        "refused 1:86 unknown\n",
    ),
    (
        "struct t; int f(struct t* p) { return p->v; } int main() { return 0; }",
        "refused 1:42 unknown\n",
    ),
    (
        "int main() { struct t* p = alloc(struct t); return 0; }",
        "refused 1:41 unknown\n",
    ),
    (
        "typedef struct t t; int main() { t* p = alloc(t); return 0; }",
        "refused 1:47 unknown\n",
    ),
    (
        "int f(int a) /*@ requires \\result == a; @*/ { return a; } int main() { return 0; }",
        "refused 1:27 unknown\n",
    ),
];

static TWICE: [(&str, &str); 10] = [
    (
        "int f() { return 0; } int f() { return 1; } int main() { return 0; }",
        "refused 1:27 twice\n",
    ),
    (
        "int main() { int x = 1; bool x = true; return 0; }",
        "refused 1:30 twice\n",
    ),
    (
        "int f(int a) { int a = 2; return a; } int main() { return 0; }",
        "refused 1:20 twice\n",
    ),
    (
        "int f(int a, bool a) { return 0; } int main() { return 0; }",
        "refused 1:19 twice\n",
    ),
    (
        "struct s { int v; }; struct s { int w; }; int main() { return 0; }",
        "refused 1:29 twice\n",
    ),
    (
        "struct s { int v; bool v; }; int main() { return 0; }",
        "refused 1:24 twice\n",
    ),
    (
        "/*@ predicate p() = true; predicate p() = true; @*/ int main() { return 0; }",
        "refused 1:37 twice\n",
    ),
    (
        "int readint() { return 1; } int main() { return 0; }",
        "refused 1:5 twice\n",
    ),
    (
        "void printint(int x); int main() { return 0; }",
        "refused 1:6 twice\n",
    ),
    (
        "int main() { int i = 0; for (int i = 1; i < 2; i++) { } return 0; }",
        "refused 1:34 twice\n",
    ),
];

static WRONG_TYPE: [(&str, &str); 24] = [
    (
        "int main() { return 1 + true * 2; }",
        "refused 1:30 wrong type\n",
    ),
    ("int main() { return -true; }", "refused 1:21 wrong type\n"),
    (
        "int main() { if (1 == true) { } return 0; }",
        "refused 1:20 wrong type\n",
    ),
    (
        "int main() { int x = true; return x; }",
        "refused 1:20 wrong type\n",
    ),
    (
        "int main() { int x = 1; x = true; return x; }",
        "refused 1:27 wrong type\n",
    ),
    (
        "int main() { int x = 1; x += true; return x; }",
        "refused 1:27 wrong type\n",
    ),
    (
        "int main() { bool x = true; x++; return 0; }",
        "refused 1:30 wrong type\n",
    ),
    (
        "int main() { bool b = true; return ((b)); }",
        "refused 1:36 wrong type\n",
    ),
    (
        "int main() { while ((1) + 2) { } return 0; }",
        "refused 1:21 wrong type\n",
    ),
    (
        "int main() { assert(1); return 0; }",
        "refused 1:21 wrong type\n",
    ),
    (
        "int main() { return true ? 1 : false; }",
        "refused 1:26 wrong type\n",
    ),
    (
        "int main() { return 1 ? 1 : 2; }",
        "refused 1:23 wrong type\n",
    ),
    (
        "int f(int a) { return a; } int main() { return f(true); }",
        "refused 1:50 wrong type\n",
    ),
    (
        "int f() { return; } int main() { return 0; }",
        "refused 1:11 wrong type\n",
    ),
    (
        "void f() { return 1; } int main() { return 0; }",
        "refused 1:12 wrong type\n",
    ),
    (
        "int main() { int* p = NULL; return 0; }",
        "refused 1:14 wrong type\n",
    ),
    (
        "struct s { struct t u; }; int main() { return 0; }",
        "refused 1:12 wrong type\n",
    ),
    (
        "int* f(int a) { return NULL; } int main() { return 0; }",
        "refused 1:1 wrong type\n",
    ),
    (
        "int f(struct s p) { return 0; } int main() { return 0; }",
        "refused 1:7 wrong type\n",
    ),
    (
        "int main() { alloc(int); return 0; }",
        "refused 1:20 wrong type\n",
    ),
    (
        "struct s { int v; bool b; struct s* n; }; int main() { struct s** p; return 0; }",
        "refused 1:56 wrong type\n",
    ),
    (
        "int main() { return NULL->v; }",
        "refused 1:25 wrong type\n",
    ),
    (
        "int main() { return (true ? NULL : NULL)->v; }",
        "refused 1:41 wrong type\n",
    ),
    (
        "int main() { int x = 1; return x->v; }",
        "refused 1:33 wrong type\n",
    ),
];

static WRONG_COUNT: [(&str, &str); 5] = [
    (
        "int f(int a) { return a; } int main() { return f(); }",
        "refused 1:48 wrong count\n",
    ),
    (
        "int f(int a) { return a; } int main() { return f(1, 2); }",
        "refused 1:48 wrong count\n",
    ),
    (
        "int main() { print(); return 0; }",
        "refused 1:14 wrong count\n",
    ),
    (
        "/*@ predicate p(int a) = true; @*/ int main() { /*@ assert p(); @*/ return 0; }",
        "refused 1:60 wrong count\n",
    ),
    (
        "/*@ predicate p(int a) = true; @*/ int main() { /*@ unfold p(1, 2); @*/ return 0; }",
        "refused 1:60 wrong count\n",
    ),
];

static UNASSIGNED: [(&str, &str); 10] = [
    (
        "int main() { int x; return x; }",
        "refused 1:28 unassigned\n",
    ),
    (
        "int main() { int x; if (true) { x = 1; } return x; }",
        "refused 1:49 unassigned\n",
    ),
    (
        "int main() { int x; while (true) { x = 1; } return x; }",
        "refused 1:52 unassigned\n",
    ),
    (
        "int main() { int x; for (int i = 0; i < 3; i++) { x = i; } return x; }",
        "refused 1:67 unassigned\n",
    ),
    (
        "int main() { int x; x += 1; return x; }",
        "refused 1:21 unassigned\n",
    ),
    (
        "int main() { int x; x++; return x; }",
        "refused 1:21 unassigned\n",
    ),
    (
        "int main() { int x; /*@ assert x == 1; @*/ return 0; }",
        "refused 1:32 unassigned\n",
    ),
    (
        "int main() { int x; while (true) /*@ loop_invariant x == 1; @*/ { x = 1; } return 0; }",
        "refused 1:53 unassigned\n",
    ),
    (
        "int main() { int x; int y = true + x; return 0; }",
        "refused 1:36 unassigned\n",
    ),
    (
        "struct s { int v; bool b; struct s* n; }; int main() { struct s* p; p->v = 1; return 0; }",
        "refused 1:69 unassigned\n",
    ),
];

static NO_RETURN: [(&str, &str); 4] = [
    (
        "int f() { } int main() { return 0; }",
        "refused 1:11 no return\n",
    ),
    (
        "int f() { if (true) { return 1; } } int main() { return 0; }",
        "refused 1:35 no return\n",
    ),
    (
        "int f() { while (true) { return 1; } } int main() { return 0; }",
        "refused 1:38 no return\n",
    ),
    (
        "int f(bool b) { if (b) { return 1; } else { assert(b); } } int main() { return 0; }",
        "refused 1:58 no return\n",
    ),
];

static ASSIGNED_IN_ENSURES: [(&str, &str); 3] = [
    (
        "int f(int a) /*@ ensures \\result == a; @*/ { a = 1; return a; } int main() { return 0; }",
        "refused 1:46 assigned in ensures\n",
    ),
    (
        "int f(int a) /*@ ensures a == 1; @*/ { a += 1; return 1; } int main() { return 0; }",
        "refused 1:40 assigned in ensures\n",
    ),
    (
        "int f(int a) /*@ requires true; @*/ /*@ ensures true || a == 1; @*/ { if (true) { a++; } return 1; } int main() { return 0; }",
        "refused 1:83 assigned in ensures\n",
    ),
];

static NO_MAIN: [(&str, &str); 5] = [
    ("", "refused 1:1 no main\n"),
    ("int f() { return 0; }", "refused 1:1 no main\n"),
    ("void main() { }", "refused 1:1 no main\n"),
    ("int main(int a) { return a; }", "refused 1:1 no main\n"),
    ("int main();", "refused 1:1 no main\n"),
];

// A text without a fault is run, or not built at this place. Places were worked out by hand.
static SOUND: [(&str, &str, u8); 17] = [
    ("int main() { return 0; }", "result 0\n", 0),
    (
        "int f(int a) { return a; } int main() { return f(1); }",
        "not built 1:49\n",
        14,
    ),
    (
        "int f(int a); int main() { return 0; }",
        "not built 1:13\n",
        14,
    ),
    (
        "struct s { int v; bool b; struct s* n; }; int main() { struct s* p = alloc(struct s); p->v = 1; p->b = true; p->n = NULL; p->n = p; return p->v; }",
        "not built 1:1\n",
        14,
    ),
    (
        "typedef int t; typedef t u; int main() { u x = 1; t y = x; return y; }",
        "not built 1:1\n",
        14,
    ),
    (
        "int main() { int x; if (true) { return 1; } else { x = 2; } return x; }",
        "not built 1:19\n",
        14,
    ),
    (
        "int main() { return 0; int x; x = x + 1; }",
        "not built 1:29\n",
        14,
    ),
    (
        "int f() { while (true) { } return 1; } int main() { return 0; }",
        "result 0\n",
        0,
    ),
    (
        "void f() { } void g() { return; } int main() { f(); g(); return 0; }",
        "not built 1:1\n",
        14,
    ),
    (
        "int main() { { int x = 1; } { bool x = true; } int x = 2; return x; }",
        "not built 1:14\n",
        14,
    ),
    (
        "int f() { return 0; } int main() { int f = 1; return f + f(); }",
        "not built 1:59\n",
        14,
    ),
    (
        "int f(int a, int b) /*@ ensures \\result == a; @*/ { b = 1; return a; } int main() { return 0; }",
        "result 0\n",
        0,
    ),
    (
        "int main() { int i = 0; while (i < 2) /*@ loop_invariant ? && i <= 2; @*/ { i++; } return i; }",
        "not built 1:78\n",
        14,
    ),
    (
        "int main() { 1 + 2; f(); return 0; } void f() { }",
        "not built 1:14\n",
        14,
    ),
    (
        "int main() { print(\"a\"); println(\"\"); printbool(moreint()); printint(readint()); return 0; }",
        "not built 1:14\n",
        14,
    ),
    (
        "int f(bool a, int b) { return a ? b : -b; } int main() { return f(!(1 < 2) && true || false, ~1 << 2); }",
        "not built 1:33\n",
        14,
    ),
    (
        "struct s { int v; bool b; struct s* n; }; /*@ predicate p(struct s* x) = x == NULL ? true : acc(x->n) && p(x->n); @*/ int main() { struct s* q = NULL; /*@ fold p(q); unfold p(q); assert p(q) && q == NULL; @*/ return 0; }",
        "not built 1:1\n",
        14,
    ),
];

#[test]
fn lexical_faults_are_named(rt: HostRuntime) -> Result<(), Fail> {
    refused(&rt, &LEXICAL)
}

#[test]
fn faults_of_the_grammar_are_named(rt: HostRuntime) -> Result<(), Fail> {
    refused(&rt, &GRAMMAR)
}

#[test]
fn violations_are_named(rt: HostRuntime) -> Result<(), Fail> {
    refused(&rt, &UNKNOWN)?;
    refused(&rt, &TWICE)?;
    refused(&rt, &WRONG_TYPE)?;
    refused(&rt, &WRONG_COUNT)?;
    refused(&rt, &UNASSIGNED)?;
    refused(&rt, &NO_RETURN)?;
    refused(&rt, &ASSIGNED_IN_ENSURES)?;
    refused(&rt, &NO_MAIN)?;
    Ok(())
}

#[test]
fn sound_texts_are_run_or_not_built(rt: HostRuntime) -> Result<(), Fail> {
    for (text, line, status) in &SOUND {
        row(
            &rt,
            &["run", "a.c0"],
            text.as_bytes(),
            NONE,
            ("", line, *status),
        )?;
    }
    Ok(())
}
