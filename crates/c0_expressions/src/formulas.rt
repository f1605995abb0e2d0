//! Formulas, instances of predicates, and the notes of an annotation among statements.
#![tactic(auto, using(c0_cursor::specs::Laws::fails_as))]

ghost use Rattle.std.specs.Prelude.{◌≡◌, ◌≤◌, ◌<◌, ◌+◌, ◌&&◌, ℕ, Some, List, [], ◌∷◌, map, length, IfOk};
ghost use Rattle.parsed_tree.specs.Tree.{ExprTree, FormulaTree, InstanceTree, NoteTree, StmtTree, notes_stmt};
ghost use Rattle.parsed_tree.specs.Views.{expr_view, formula_view, instance_view, note_view, stmt_view};
ghost use Rattle.c0_grammar.specs.Tokens.{close_mark};
ghost use Rattle.c0_grammar.specs.Plan.{Plan, await, many, note_loop, formula, stated, instance, note_enter, annotation_plan};
ghost use Rattle.c0_cursor.specs.Seen.{starts, reading, stepping, Parsed};
ghost use Rattle.c0_expressions.specs.Seen.{is_note, first_note};
ghost use Rattle.c0_expressions.specs.Read.{onto};

use crate::built::deeper;
use crate::expressions::{arguments_of, expression};
use crate::part;
use c0_cursor::{Mark, Mode, NOWHERE, Names, Stop, begins, expect, free_name, remaining};
use c0_lex::{Keyword, Symbol, Token, TokenKind};
use gc0_base::{Limits, Place};
use parsed_tree::{Expr, Formula, Instance, Note, NoteForm, Stmt};
use sqlite_items::{Boxed, Items};
use std::alloc::{AllocError, Global};

// A formula, how deep it is, and the tokens behind it.
fn formula_of<'t, 'a>(
    alloc: Global,
    names: &Names<'a>,
    up: u32,
    tokens: &'t [Token<'a>],
) -> Result<(Formula, u32, &'t [Token<'a>]), Stop>
    requires { up ≤ Limits.NESTING }
    ensures reads { (next : FormulaTree → ℕ → Plan) → Parsed (λ x. reading (next (formula_view x.0) x.1) x.2.now) (reading (formula names.now up next) tokens.now) result }
    ensures room { IfOk result (λ x. up + x.1 ≤ Limits.NESTING) }
    ensures shorter { IfOk result (λ x. length x.2.now < length tokens.now) }
{
    if !begins(Mark::Sign(Symbol::Question), tokens) {
        let (e, rest) = part!(expression(alloc, names, Mode::Conjunct, up, tokens));
        let depth = e.depth;
        return Ok((with_parts(false, e.expr), depth, rest));
    }
    let (_, rest) = part!(expect(Mark::Sign(Symbol::Question), tokens));
    if !begins(Mark::Sign(Symbol::Both), rest) {
        return Ok((
            Formula {
                imprecise: true,
                parts: None,
            },
            0,
            rest,
        ));
    }
    let (_, rest) = part!(expect(Mark::Sign(Symbol::Both), rest));
    let (e, rest) = part!(expression(alloc, names, Mode::Conjunct, up, rest));
    let depth = e.depth;
    Ok((with_parts(true, e.expr), depth, rest))
}

fn with_parts(imprecise: bool, parts: Boxed<Expr>) -> Formula
    ensures { formula_view result ≡ record { imprecise = imprecise; parts = Some (expr_view parts) } }
{
    Formula {
        imprecise,
        parts: Some(parts.into_inner()),
    }
}

/// A formula and the `;` behind it.
pub fn stated<'t, 'a>(
    alloc: Global,
    names: &Names<'a>,
    up: u32,
    tokens: &'t [Token<'a>],
) -> Result<(Formula, u32, &'t [Token<'a>]), Stop>
    requires { up ≤ Limits.NESTING }
    ensures reads { (next : FormulaTree → ℕ → Plan) → Parsed (λ x. reading (next (formula_view x.0) x.1) x.2.now) (reading (stated names.now up next) tokens.now) result }
    ensures room { IfOk result (λ x. up + x.1 ≤ Limits.NESTING) }
    ensures shorter { IfOk result (λ x. length x.2.now < length tokens.now) }
{
    let (formula, depth, rest) = part!(formula_of(alloc, names, up, tokens));
    let (_, rest) = part!(expect(Mark::Sign(Symbol::Semicolon), rest));
    Ok((formula, depth, rest))
}

// An instance of a predicate, and the `;` behind it.
fn instance_of<'t, 'a>(
    alloc: Global,
    names: &Names<'a>,
    up: u32,
    tokens: &'t [Token<'a>],
) -> Result<(Instance, u32, &'t [Token<'a>]), Stop>
    requires { up < Limits.NESTING }
    ensures reads { (next : InstanceTree → ℕ → Plan) → Parsed (λ x. reading (next (instance_view x.0) x.1) x.2.now) (reading (instance names.now up next) tokens.now) result }
    ensures room { IfOk result (λ x. up + x.1 ≤ Limits.NESTING) }
    ensures shorter { IfOk result (λ x. length x.2.now < length tokens.now) }
{
    let (name, rest) = part!(free_name(alloc, names, tokens));
    let (_, rest) = part!(expect(Mark::Sign(Symbol::OpenParen), rest));
    let (arguments, depth, rest) = part!(arguments_of(alloc, names, Mode::Value, up + 1, rest));
    let (_, rest) = part!(expect(Mark::Sign(Symbol::Semicolon), rest));
    Ok((Instance { name, arguments }, depth + 1, rest))
}

// What stands behind the word of a note, if it is one, at this place.
fn note_behind<'t, 'a>(
    alloc: Global,
    names: &Names<'a>,
    up: u32,
    keyword: Keyword,
    place: Place,
    tokens: &'t [Token<'a>],
) -> Result<(Note, u32, &'t [Token<'a>]), Stop>
    requires { up ≤ Limits.NESTING }
    ensures reads { (next : NoteTree → ℕ → Plan) → Parsed (λ x. reading (next (note_view x.0) x.1) x.2.now) (stepping (note_enter names.now up next keyword place) place tokens.now) result }
    ensures room { IfOk result (λ x. up + x.1 ≤ Limits.NESTING) }
    ensures shorter { IfOk result (λ x. length x.2.now < length tokens.now) }
{
    match keyword {
        Keyword::Assert => {
            let (formula, depth, rest) = part!(stated(alloc, names, up, tokens));
            Ok((
                Note {
                    place,
                    form: NoteForm::Assert(formula),
                },
                depth,
                rest,
            ))
        }
        Keyword::Fold if up < Limits::NESTING => {
            let (instance, depth, rest) = part!(instance_of(alloc, names, up, tokens));
            Ok((
                Note {
                    place,
                    form: NoteForm::Fold(instance),
                },
                depth,
                rest,
            ))
        }
        Keyword::Unfold if up < Limits::NESTING => {
            let (instance, depth, rest) = part!(instance_of(alloc, names, up, tokens));
            Ok((
                Note {
                    place,
                    form: NoteForm::Unfold(instance),
                },
                depth,
                rest,
            ))
        }
        Keyword::Fold | Keyword::Unfold => Err(Stop::TooDeep(place)),
        _ => Err(Stop::Syntax(place)),
    }
}

// The notes so far, with those that follow and what closes the annotation.
fn more_notes<'t, 'a>(
    alloc: Global,
    names: &Names<'a>,
    up: u32,
    so_far: Items<Note>,
    depth: u32,
    tokens: &'t [Token<'a>],
) -> Result<(Items<Note>, u32, &'t [Token<'a>]), Stop>
    requires { up + depth ≤ Limits.NESTING }
    ensures reads { (next : List NoteTree → ℕ → Plan) → Parsed (λ x. reading (next (map note_view x.0) x.1) x.2.now) (reading (many (note_loop names.now up) (onto (map note_view so_far) depth (λ ns d. await 0 close_mark (λ e. next ns d)))) tokens.now) result }
    ensures room { IfOk result (λ x. up + x.1 ≤ Limits.NESTING) }
    ensures shorter { IfOk result (λ x. length x.2.now < length tokens.now) }
{
    let mut found = so_far;
    let mut deepest = depth;
    let mut rest = tokens;
    'notes: while let Some((token, behind)) = rest.split_first() {
        match token.kind {
            TokenKind::AnnotationEnd => return Ok((found, deepest, behind)),
            TokenKind::Keyword(keyword) => {
                let (note, depth, after) = part!(note_behind(
                    alloc,
                    names,
                    up,
                    keyword,
                    token.place,
                    behind
                ));
                deepest = deeper(deepest, depth);
                found.push(note)?;
                rest = remaining(after);
            }
            _ => return Err(Stop::Syntax(token.place)),
        }
    }
    Err(Stop::Syntax(NOWHERE))
}

fn one_note(alloc: Global, note: Note) -> Result<Items<Note>, AllocError>
    ensures { IfOk result (λ x. map note_view x ≡ note_view note ∷ []) }
{
    let mut found = Items::new(alloc);
    found.push(note)?;
    Ok(found)
}

fn notes_statement(place: Place, clauses: Items<Note>) -> Stmt
    ensures { stmt_view result ≡ notes_stmt place (map note_view clauses) }
{
    Stmt::Notes { place, clauses }
}

/// The notes behind what opened an annotation at this place, and what closes it. It may have none
/// where `whole` is true.
pub fn notes_of<'t, 'a>(
    alloc: Global,
    names: &Names<'a>,
    whole: bool,
    up: u32,
    place: Place,
    tokens: &'t [Token<'a>],
) -> Result<(Stmt, u32, &'t [Token<'a>]), Stop>
    requires { up ≤ Limits.NESTING }
    ensures reads { (next : StmtTree → ℕ → Plan) → Parsed (λ x. reading (next (stmt_view x.0) x.1) x.2.now) (reading (annotation_plan names.now whole up next place) tokens.now) result }
    ensures room { IfOk result (λ x. up + x.1 ≤ Limits.NESTING) }
    ensures shorter { IfOk result (λ x. length x.2.now < length tokens.now) }
{
    if closes_at_once(whole, tokens) {
        let (_, rest) = part!(expect(Mark::Close, tokens));
        return Ok((notes_statement(place, Items::new(alloc)), 0, rest));
    }
    let Some((token, rest)) = tokens.split_first() else {
        return Err(Stop::Syntax(NOWHERE));
    };
    match token.kind {
        TokenKind::Keyword(keyword) => notes_from(
            alloc,
            names,
            up,
            place,
            keyword,
            token.place,
            rest,
        ),
        _ => Err(Stop::Syntax(token.place)),
    }
}

// Whether the annotation is closed at once, where it may be.
fn closes_at_once<'t, 'a>(whole: bool, tokens: &'t [Token<'a>]) -> bool
    ensures { result ≡ (whole && starts close_mark tokens.now) }
{
    whole && begins(Mark::Close, tokens)
}

// The notes of an annotation that opened at `place`, of which the first has its word at `at`.
fn notes_from<'t, 'a>(
    alloc: Global,
    names: &Names<'a>,
    up: u32,
    place: Place,
    keyword: Keyword,
    at: Place,
    tokens: &'t [Token<'a>],
) -> Result<(Stmt, u32, &'t [Token<'a>]), Stop>
    requires { up ≤ Limits.NESTING }
    ensures reads { (next : StmtTree → ℕ → Plan) → Parsed (λ x. reading (next (stmt_view x.0) x.1) x.2.now) (stepping (first_note names.now up next place keyword at) at tokens.now) result }
    ensures room { IfOk result (λ x. up + x.1 ≤ Limits.NESTING) }
    ensures shorter { IfOk result (λ x. length x.2.now < length tokens.now) }
{
    if !is_note(keyword) {
        return Err(Stop::Syntax(at));
    }
    if up >= Limits::NESTING {
        return Err(Stop::TooDeep(at));
    }
    let (note, depth, rest) = part!(note_behind(alloc, names, up + 1, keyword, at, tokens));
    let found = one_note(alloc, note)?;
    let (notes, depth, rest) = part!(more_notes(alloc, names, up + 1, found, depth, rest));
    Ok((notes_statement(place, notes), depth + 1, rest))
}

fn is_note(keyword: Keyword) -> bool
    ensures { result ≡ is_note keyword }
{
    matches!(keyword, Keyword::Assert | Keyword::Fold | Keyword::Unfold)
}
