//! Texts that break a rule of framing or guards, and what comes before and behind these rules.

use crate::running::{NONE, refused, row};
use std::test::Fail;

// Each text is refused with this line. Places were worked out by hand from the rules in
// docs/language.md.
static NOT_FRAMED: [(&str, &str); 14] = [
    (
        "struct s { int v; }; void f(struct s* p) /*@requires p->v == 1; @*/ { } int main() { return 0; }",
        "refused 1:55 not framed\n",
    ),
    (
        "struct s { int v; struct s* n; }; void f(struct s* p) /*@ requires p->v == 1 && acc(p->v); @*/ { } int main() { return 0; }",
        "refused 1:69 not framed\n",
    ),
    (
        "struct s { int v; struct s* n; }; void f(struct s* p, bool b) /*@ requires b ? acc(p->v) : p->v == 1; @*/ { } int main() { return 0; }",
        "refused 1:93 not framed\n",
    ),
    (
        "struct s { int v; struct s* n; }; void f(struct s* p, bool b) /*@ requires (b ? acc(p->v) : true) && p->v == 1; @*/ { } int main() { return 0; }",
        "refused 1:103 not framed\n",
    ),
    (
        "struct s { int v; struct s* n; }; void f(struct s* p, struct s* q) /*@ requires acc(p->v) && q->v == 1; @*/ { } int main() { return 0; }",
        "refused 1:95 not framed\n",
    ),
    (
        "struct s { int v; struct s* n; }; void f(struct s* p) /*@ requires acc(p->v) && p->n == NULL; @*/ { } int main() { return 0; }",
        "refused 1:82 not framed\n",
    ),
    (
        "struct s { int v; struct s* n; }; void f(struct s* p) /*@ requires acc(p->n->v); @*/ { } int main() { return 0; }",
        "refused 1:73 not framed\n",
    ),
    (
        "struct s { int v; struct s* n; }; void f(struct s* p) /*@ requires acc(p->v) && p->n->v == p->v; @*/ { } int main() { return 0; }",
        "refused 1:82 not framed\n",
    ),
    (
        "struct s { int v; struct s* n; }; void f(struct s* p) /*@ requires acc(p->v); @*/ /*@ ensures p->v == 1; @*/ { } int main() { return 0; }",
        "refused 1:96 not framed\n",
    ),
    (
        "struct s { int v; struct s* n; }; struct s* f(struct s* p) /*@ ensures \\result->v == 1; @*/ { return p; } int main() { return 0; }",
        "refused 1:79 not framed\n",
    ),
    (
        "struct s { int v; struct s* n; }; int main() { struct s* q = alloc(struct s); while (q->v < 3) /*@ loop_invariant q->v < 4; @*/ { q->v = 3; } return 0; }",
        "refused 1:116 not framed\n",
    ),
    (
        "struct s { int v; struct s* n; }; /*@ predicate p(struct s* x) = x->v == 1; @*/ int main() { return 0; }",
        "refused 1:67 not framed\n",
    ),
    (
        "struct s { int v; struct s* n; }; /*@ predicate p(int i) = true; predicate q(struct s* x) = acc(x->n) && p(x->v); @*/ int main() { return 0; }",
        "refused 1:109 not framed\n",
    ),
    (
        "struct s { int v; struct s* n; }; /*@ predicate p(struct s* x) = x == NULL ? true : acc(x->v) && p(x->n); @*/ int main() { return 0; }",
        "refused 1:101 not framed\n",
    ),
];

static UNGUARDED: [(&str, &str); 5] = [
    (
        "/*@ predicate p(int x) = p(x); @*/ int main() { return 0; }",
        "refused 1:26 unguarded\n",
    ),
    (
        "/*@ predicate p(int x) = q(x); predicate q(int x) = true; @*/ int main() { return 0; }",
        "refused 1:26 unguarded\n",
    ),
    (
        "/*@ predicate p(int x) = x == 0 ? true : p(x - 1); @*/ int main() { return 0; }",
        "refused 1:42 unguarded\n",
    ),
    (
        "struct s { int v; struct s* n; }; /*@ predicate p(struct s* x) = x == NULL ? acc(x->v) : p(x); @*/ int main() { return 0; }",
        "refused 1:90 unguarded\n",
    ),
    (
        "struct s { int v; struct s* n; }; /*@ predicate p(struct s* x) = p(x) && acc(x->v); @*/ int main() { return 0; }",
        "refused 1:66 unguarded\n",
    ),
];

// Of two faults the one at the least place, and a typing fault before both.
static FIRST: [(&str, &str); 6] = [
    (
        "struct s { int v; struct s* n; }; /*@ predicate p(int x) = p(x); @*/ void f(struct s* a) /*@ requires a->v == 1; @*/ { } int main() { return 0; }",
        "refused 1:60 unguarded\n",
    ),
    (
        "struct s { int v; struct s* n; }; void f(struct s* a) /*@ requires a->v == 1; @*/ { } /*@ predicate p(int x) = p(x); @*/ int main() { return 0; }",
        "refused 1:69 not framed\n",
    ),
    (
        "struct s { int v; struct s* n; }; /*@ predicate p(struct s* x) = x->v == 1 && p(x); @*/ int main() { return 0; }",
        "refused 1:67 not framed\n",
    ),
    (
        "struct s { int v; struct s* n; }; void f(struct s* a) /*@ requires a->v == 1 && a->v == 2; @*/ { } int main() { return 0; }",
        "refused 1:69 not framed\n",
    ),
    (
        "struct s { int v; struct s* n; }; void f(struct s* a) /*@ requires a->v == 1; @*/ { } int main() { return true; }",
        "refused 1:107 wrong type\n",
    ),
    (
        "/*@ predicate p(int x) = p(x); @*/ int main() { return x; }",
        "refused 1:56 unknown\n",
    ),
];

// Nothing is refused here; none of these texts can be run yet.
static FRAMED: [&str; 8] = [
    "struct s { int v; struct s* n; }; void f(struct s* p) /*@ requires ? && p->v == 1; @*/ { } int main() { return 0; }",
    "struct s { int v; struct s* n; }; void f(struct s* p) /*@ requires acc(p->v) && p->v == 1; @*/ { } int main() { return 0; }",
    "struct s { int v; struct s* n; }; void f(struct s* p) /*@ requires acc(p->n) && acc(p->n->v) && p->n->v == 1; @*/ { } int main() { return 0; }",
    "struct s { int v; struct s* n; }; void f(struct s* p, bool b) /*@ requires b ? acc(p->v) && p->v == 1 : true; @*/ { } int main() { return 0; }",
    "struct s { int v; struct s* n; }; void f(struct s* p) /*@ requires true; @*/ /*@ ensures ? && p->v == 1; @*/ { } int main() { return 0; }",
    "struct s { int v; struct s* n; }; int main() { struct s* q = alloc(struct s); /*@ assert q->v == 0; @*/ return 0; }",
    "struct s { int v; struct s* n; }; /*@ predicate p(struct s* x) = x == NULL ? true : acc(x->n) && p(x->n); @*/ int main() { return 0; }",
    "/*@ predicate q(int x) = true; predicate p(int x) = q(x); @*/ int main() { return 0; }",
];

#[test]
fn faults_of_framing_are_named(rt: HostRuntime) -> Result<(), Fail> {
    refused(&rt, &NOT_FRAMED)?;
    refused(&rt, &UNGUARDED)?;
    refused(&rt, &FIRST)
}

#[test]
fn framed_texts_go_on(rt: HostRuntime) -> Result<(), Fail> {
    for text in &FRAMED {
        let unbuilt = ("", "not built 1:1\n", 14);
        row(&rt, &["run", "a.c0"], text.as_bytes(), NONE, unbuilt)?;
    }
    Ok(())
}
