//! The invariants of a loop.
#![tactic(auto, using(c0_cursor::specs::Laws::fails_as))]

ghost use Rattle.std.specs.Prelude.{◌≡◌, ◌≤◌, ◌<◌, ◌+◌, ℕ, true, false, List, [], ◌∷◌, map, length, IfOk};
ghost use Rattle.c0_lex.specs.declared.token.Keyword.TheVariants.{LoopInvariant};
ghost use Rattle.parsed_tree.specs.Tree.{InvariantTree, InvariantsTree, StmtTree};
ghost use Rattle.parsed_tree.specs.Views.{invariant_view, invariants_view, stmt_view};
ghost use Rattle.c0_grammar.specs.Tokens.{word_mark, close_mark};
ghost use Rattle.c0_grammar.specs.Plan.{Plan, await, many, invariant_loop, invariant_plan, loop_body};
ghost use Rattle.c0_cursor.specs.Seen.{reading, Parsed};
ghost use Rattle.c0_parse.specs.Seen.{opens_invariants, invariants_plan};
ghost use Rattle.c0_expressions.specs.Read.{onto};
ghost use Rattle.c0_parse.specs.Read.{onto_loop};

use crate::part;
use c0_cursor::{Mark, Names, Stop, begins, expect, remaining};
use c0_expressions::{deeper, stated};
use c0_lex::{Keyword, Token};
use gc0_base::{Limits, Place};
use parsed_tree::{Invariant, Invariants, Stmt};
use sqlite_items::{Boxed, Items};
use std::alloc::{AllocError, Global};

/// What stands behind the head of a loop.
#[derive(Drop)]
pub struct Inner {
    pub invariants: Items<Invariants>,
    /// How deep the invariants are.
    pub above: u32,
    pub body: Boxed<Stmt>,
    /// How deep the body is.
    pub below: u32,
}

// Whether an annotation stands first that is empty or has an invariant.
fn begins_invariants<'t, 'a>(tokens: &'t [Token<'a>]) -> bool
    ensures { result ≡ opens_invariants tokens.now }
{
    match tokens.split_first() {
        Some((_, rest)) => begins(Mark::Open, tokens)
            && (begins(Mark::Close, rest) || begins(Mark::Word(Keyword::LoopInvariant), rest)),
        None => false,
    }
}

/// The annotations with invariants that stand first, and how deep they are.
pub fn all_invariants<'t, 'a>(
    alloc: Global,
    names: &Names<'a>,
    up: u32,
    tokens: &'t [Token<'a>],
) -> Result<(Items<Invariants>, u32, &'t [Token<'a>]), Stop>
    requires { up ≤ Limits.NESTING }
    ensures reads { (next : List InvariantsTree → ℕ → StmtTree → ℕ → Plan) → Parsed (λ x. reading (loop_body names.now up (onto_loop (map invariants_view x.0) x.1 next)) x.2.now) (reading (loop_body names.now up next) tokens.now) result }
    ensures over { IfOk result (λ x. opens_invariants x.2.now ≡ false) }
    ensures room { IfOk result (λ x. up + x.1 ≤ Limits.NESTING) }
    ensures shorter { IfOk result (λ x. length x.2.now ≤ length tokens.now) }
{
    let mut found = Items::new(alloc);
    let mut deepest = 0;
    let mut rest = tokens;
    'annotations: while begins_invariants(rest) {
        let (invariants, depth, after) = part!(invariants_of(alloc, names, up, rest));
        deepest = deeper(deepest, depth);
        found.push(invariants)?;
        rest = remaining(after);
    }
    Ok((found, deepest, rest))
}

// An annotation that is empty or has an invariant.
fn invariants_of<'t, 'a>(
    alloc: Global,
    names: &Names<'a>,
    up: u32,
    tokens: &'t [Token<'a>],
) -> Result<(Invariants, u32, &'t [Token<'a>]), Stop>
    requires { up ≤ Limits.NESTING }
    ensures reads { (next : InvariantsTree → ℕ → Plan) → Parsed (λ x. reading (next (invariants_view x.0) x.1) x.2.now) (reading (invariants_plan names.now up next) tokens.now) result }
    ensures room { IfOk result (λ x. up + x.1 ≤ Limits.NESTING) }
    ensures shorter { IfOk result (λ x. length x.2.now < length tokens.now) }
{
    let (place, rest) = part!(expect(Mark::Open, tokens));
    if begins(Mark::Close, rest) {
        let (_, rest) = part!(expect(Mark::Close, rest));
        return Ok((
            Invariants {
                place,
                clauses: Items::new(alloc),
            },
            0,
            rest,
        ));
    }
    let (invariant, depth, rest) = part!(invariant_of(alloc, names, up, rest));
    let found = one(alloc, invariant)?;
    let (clauses, depth, rest) = part!(more_invariants(alloc, names, up, found, depth, rest));
    Ok((Invariants { place, clauses }, depth, rest))
}

fn one(alloc: Global, invariant: Invariant) -> Result<Items<Invariant>, AllocError>
    ensures { IfOk result (λ x. map invariant_view x ≡ invariant_view invariant ∷ []) }
{
    let mut found = Items::new(alloc);
    found.push(invariant)?;
    Ok(found)
}

// An invariant, from its word on.
fn invariant_of<'t, 'a>(
    alloc: Global,
    names: &Names<'a>,
    up: u32,
    tokens: &'t [Token<'a>],
) -> Result<(Invariant, u32, &'t [Token<'a>]), Stop>
    requires { up ≤ Limits.NESTING }
    ensures reads { (next : InvariantTree → ℕ → Plan) → Parsed (λ x. reading (next (invariant_view x.0) x.1) x.2.now) (reading (await 0 (word_mark LoopInvariant) (invariant_plan names.now up next)) tokens.now) result }
    ensures room { IfOk result (λ x. up + x.1 ≤ Limits.NESTING) }
    ensures shorter { IfOk result (λ x. length x.2.now < length tokens.now) }
{
    let (place, rest) = part!(expect(Mark::Word(Keyword::LoopInvariant), tokens));
    let (formula, depth, rest) = part!(stated(alloc, names, up, rest));
    Ok((Invariant { place, formula }, depth, rest))
}

// The invariants so far, with those that follow and what closes the annotation.
fn more_invariants<'t, 'a>(
    alloc: Global,
    names: &Names<'a>,
    up: u32,
    so_far: Items<Invariant>,
    depth: u32,
    tokens: &'t [Token<'a>],
) -> Result<(Items<Invariant>, u32, &'t [Token<'a>]), Stop>
    requires { up + depth ≤ Limits.NESTING }
    ensures reads { (next : List InvariantTree → ℕ → Plan) → Parsed (λ x. reading (next (map invariant_view x.0) x.1) x.2.now) (reading (many (invariant_loop names.now up) (onto (map invariant_view so_far) depth (λ cs d. await 0 close_mark (λ e. next cs d)))) tokens.now) result }
    ensures room { IfOk result (λ x. up + x.1 ≤ Limits.NESTING) }
    ensures shorter { IfOk result (λ x. length x.2.now < length tokens.now) }
{
    let mut found = so_far;
    let mut deepest = depth;
    let mut rest = tokens;
    'clauses: while begins(Mark::Word(Keyword::LoopInvariant), rest) {
        let (invariant, depth, after) = part!(invariant_of(alloc, names, up, rest));
        deepest = deeper(deepest, depth);
        found.push(invariant)?;
        rest = remaining(after);
    }
    let (_, rest) = part!(expect(Mark::Close, rest));
    Ok((found, deepest, rest))
}
