//! Statements with numbers in place of names.

ghost use Rattle.std.specs.Prelude.{◌≡◌, [], ◌∷◌, ◌++◌, length, map, Option, Some, None, IfOk, OnOk};
ghost use Rattle.std.specs.Option.{option_map};
ghost use Rattle.gc0_base.specs.declared.place.Place.{Place};
ghost use Rattle.gc0_tree.specs.declared.ExprOp.{ExprOp};
ghost use Rattle.gc0_tree.specs.Tree as gc0;
ghost use Rattle.gc0_tree.specs.Views.{expr_view, expr_in, formula_view, stmt_view, stmts_view, stmts_in, stmt_form_view};
ghost use Rattle.parsed_tree.specs.Views as read;
ghost use Rattle.c0_value_numbers.specs.Texts.{expr_texts};
ghost use Rattle.c0_numbers.specs.StatementTexts.{optional_texts, value_texts, simple_texts, part_texts, stmt_texts, stmts_texts};
ghost use Rattle.c0_value_numbers.specs.Expressions.{expr_tree};
ghost use Rattle.c0_value_numbers.specs.Formulas.{joined, invariants};
ghost use Rattle.c0_numbers.specs.Statements.{with_local, simple_frame, part_frame, stmt_frame, stmts_frame, optional_tree, initial_tree, simple_tree, part_tree, note_form, notes_tree, alone, before, stmt_tree, stmts_tree, else_tree, update_of, step_of, put_tree};
ghost use Rattle.c0_numbers.specs.Rows.{stmts_before};

use crate::targets::{put, target_at};
use c0_names::Tables;
use c0_value_numbers::{Frame, expression, formula, instance, invariants, joined, number, small};
use gc0_base::{Place, Word};
use gc0_tree::{Expr, ExprOp, Formula, Note, Stmt, StmtForm};
use parsed_tree::{Invariants, NoteForm, Simple, StepOperator, TypeName, UpdateOperator};
use sqlite_items::{Boxed, Items};
use std::alloc::{AllocError, Global};

// A statement of this form at this place.
fn stands(place: Place, form: StmtForm) -> Stmt
    ensures { stmt_view result ≡ stmt_form_view form place }
{
    Stmt { place, form }
}

fn update_of(operator: UpdateOperator) -> ExprOp
    ensures { result ≡ update_of operator }
{
    match operator {
        UpdateOperator::Add => ExprOp::Add,
        UpdateOperator::Sub => ExprOp::Sub,
        UpdateOperator::Mul => ExprOp::Mul,
        UpdateOperator::Div => ExprOp::Div,
        UpdateOperator::Rem => ExprOp::Rem,
        UpdateOperator::And => ExprOp::And,
        UpdateOperator::Xor => ExprOp::Xor,
        UpdateOperator::Or => ExprOp::Or,
        UpdateOperator::Shl => ExprOp::Shl,
        UpdateOperator::Shr => ExprOp::Shr,
    }
}

// The operator of `op=`, where there is one.
fn updates_of(operator: Option<UpdateOperator>) -> Option<ExprOp>
    ensures { result ≡ option_map update_of operator }
{
    match operator {
        Some(operator) => Some(update_of(operator)),
        None => None,
    }
}

fn step_of(operator: StepOperator) -> ExprOp
    ensures { result ≡ step_of operator }
{
    match operator {
        StepOperator::Increment => ExprOp::Add,
        StepOperator::Decrement => ExprOp::Sub,
    }
}

/// One more local.
pub fn declare<'a>(
    tables: &Tables,
    frame: &mut Frame<'a>,
    typed: &TypeName,
    name: &'a [u8],
) -> Result<(), AllocError>
    ensures { OnOk result (frame.new ≡ with_local tables.now frame.old typed.now name.now) }
{
    let typed = tables.value_type(typed)?;
    frame.locals.push(name, typed)
}

fn optional(
    alloc: Global,
    tables: &Tables,
    frame: &Frame,
    texts: &mut Items<Items<u8>>,
    e: &Option<parsed_tree::Expr>,
) -> Result<Option<Boxed<Expr>>, AllocError>
    ensures tree { IfOk result (λ r. expr_in r ≡ optional_tree tables.now frame.now texts.old (option_map read.expr_view e.now)) }
    ensures texts { OnOk result (texts.new ≡ optional_texts texts.old (option_map read.expr_view e.now)) }
{
    match e {
        Some(e) => Ok(Some(expression(alloc, tables, frame, texts, e)?.tree)),
        None => Ok(None),
    }
}

fn initial(
    alloc: Global,
    tables: &Tables,
    frame: &Frame,
    texts: &mut Items<Items<u8>>,
    value: &Option<(Place, parsed_tree::Expr)>,
) -> Result<Option<Boxed<Expr>>, AllocError>
    ensures tree { IfOk result (λ r. expr_in r ≡ initial_tree tables.now frame.now texts.old (option_map read.value_view value.now)) }
    ensures texts { OnOk result (texts.new ≡ value_texts texts.old (option_map read.value_view value.now)) }
{
    match value {
        Some((_, e)) => Ok(Some(expression(alloc, tables, frame, texts, e)?.tree)),
        None => Ok(None),
    }
}

// A value that stands or not, out of its box.
fn unboxed(value: Option<Boxed<Expr>>) -> Option<Expr>
    ensures { expr_in result ≡ expr_in value }
{
    match value {
        Some(value) => Some(value.into_inner()),
        None => None,
    }
}

fn declare_statement(place: Place, local: u32, value: Option<Boxed<Expr>>) -> Stmt
    ensures { stmt_view result ≡ gc0.declare_at place local (expr_in value) }
{
    let value = unboxed(value);
    stands(place, StmtForm::Declare { local, value })
}

fn plain_statement(place: Place, value: Boxed<Expr>) -> Stmt
    ensures { stmt_view result ≡ gc0.plain_at place (expr_view value) }
{
    stands(place, StmtForm::Plain(value.into_inner()))
}

// A declaration; its local comes behind the others.
fn declaration<'a>(
    alloc: Global,
    tables: &Tables,
    frame: &mut Frame<'a>,
    texts: &mut Items<Items<u8>>,
    typed: &TypeName,
    name: &'a [u8],
    value: &Option<(Place, parsed_tree::Expr)>,
) -> Result<Stmt, AllocError>
    ensures tree { IfOk result (λ r. stmt_view r ≡ gc0.declare_at typed.now.place (length frame.old.locals.names) (initial_tree tables.now frame.old texts.old (option_map read.value_view value.now))) }
    ensures frame { OnOk result (frame.new ≡ with_local tables.now frame.old typed.now name.now) }
    ensures texts { OnOk result (texts.new ≡ value_texts texts.old (option_map read.value_view value.now)) }
{
    let local = small(frame.locals.names.len())?;
    let value = initial(alloc, tables, frame, texts, value)?;
    declare(tables, frame, typed, name)?;
    Ok(declare_statement(typed.place, local, value))
}

// A value that is put into a target, after an operator of its own if there is one.
fn assignment(
    alloc: Global,
    tables: &Tables,
    frame: &Frame,
    texts: &mut Items<Items<u8>>,
    to: &parsed_tree::Expr,
    operator: Option<ExprOp>,
    place: Place,
    value: &parsed_tree::Expr,
) -> Result<Stmt, AllocError>
    ensures tree { IfOk result (λ r. stmt_view r ≡ put_tree tables.now frame.now texts.old (read.expr_view to.now) operator place (expr_tree tables.now frame.now (expr_texts texts.old (read.expr_view to.now)) (read.expr_view value.now))) }
    ensures texts { OnOk result (texts.new ≡ expr_texts (expr_texts texts.old (read.expr_view to.now)) (read.expr_view value.now)) }
{
    let to = target_at(alloc, tables, frame, texts, to)?;
    let value = expression(alloc, tables, frame, texts, value)?;
    Ok(put(to, operator, place, value.tree.into_inner()))
}

// `++` or `--`.
fn step(
    alloc: Global,
    tables: &Tables,
    frame: &Frame,
    texts: &mut Items<Items<u8>>,
    to: &parsed_tree::Expr,
    operator: StepOperator,
    place: Place,
) -> Result<Stmt, AllocError>
    ensures tree { IfOk result (λ r. stmt_view r ≡ put_tree tables.now frame.now texts.old (read.expr_view to.now) (Some (step_of operator)) place (gc0.number_at place 1)) }
    ensures texts { OnOk result (texts.new ≡ expr_texts texts.old (read.expr_view to.now)) }
{
    let to = target_at(alloc, tables, frame, texts, to)?;
    Ok(put(to, Some(step_of(operator)), place, number(place, Word(1))))
}

// A statement that needs a `;`, or a part of a `for`.
fn simple<'a>(
    alloc: Global,
    tables: &Tables,
    frame: &mut Frame<'a>,
    texts: &mut Items<Items<u8>>,
    s: &'a Simple,
) -> Result<Stmt, AllocError>
    ensures tree { IfOk result (λ r. stmt_view r ≡ simple_tree tables.now frame.old texts.old (read.simple_view s.now)) }
    ensures frame { OnOk result (frame.new ≡ simple_frame tables.now frame.old (read.simple_view s.now)) }
    ensures texts { OnOk result (texts.new ≡ simple_texts texts.old (read.simple_view s.now)) }
{
    match s {
        Simple::Declare { typed, name, value } => {
            let name = name.name.as_slice();
            declaration(alloc, tables, frame, texts, typed, name, value)
        }
        Simple::Assign {
            target,
            place,
            operator,
            value,
        } => {
            let operator = updates_of(*operator);
            assignment(alloc, tables, frame, texts, target, operator, *place, value)
        }
        Simple::Step {
            target,
            place,
            operator,
        } => step(alloc, tables, frame, texts, target, *operator, *place),
        Simple::Plain(e) => {
            let value = expression(alloc, tables, frame, texts, e)?;
            Ok(plain_statement(e.spot().first, value.tree))
        }
    }
}

// A part of a `for`, where it stands.
fn part<'a>(
    alloc: Global,
    tables: &Tables,
    frame: &mut Frame<'a>,
    texts: &mut Items<Items<u8>>,
    s: &'a Option<Boxed<Simple>>,
) -> Result<Option<Boxed<Stmt>>, AllocError>
    ensures tree { IfOk result (λ r. stmts_in (option_map stmt_view r) ≡ part_tree tables.now frame.old texts.old (option_map read.simple_view s.now)) }
    ensures frame { OnOk result (frame.new ≡ part_frame tables.now frame.old (option_map read.simple_view s.now)) }
    ensures texts { OnOk result (texts.new ≡ part_texts texts.old (option_map read.simple_view s.now)) }
{
    match s {
        Some(s) => {
            let made = simple(alloc, tables, frame, texts, s.get())?;
            Ok(Some(Boxed::new(alloc, made)?))
        }
        None => Ok(None),
    }
}

fn assert_note(place: Place, formula: Formula) -> Stmt
    ensures { stmt_view result ≡ gc0.note_at place gc0.assert_note (formula_view formula) }
{
    stands(place, StmtForm::Note(Note::Assert(formula)))
}

fn fold_note(place: Place, formula: Formula) -> Stmt
    ensures { stmt_view result ≡ gc0.note_at place gc0.fold_note (formula_view formula) }
{
    stands(place, StmtForm::Note(Note::Fold(formula)))
}

fn unfold_note(place: Place, formula: Formula) -> Stmt
    ensures { stmt_view result ≡ gc0.note_at place gc0.unfold_note (formula_view formula) }
{
    stands(place, StmtForm::Note(Note::Unfold(formula)))
}

// A clause of an annotation.
fn note(
    alloc: Global,
    tables: &Tables,
    frame: &Frame,
    place: Place,
    form: &NoteForm,
) -> Result<Stmt, AllocError>
    ensures { IfOk result (λ r. stmt_view r ≡ note_form tables.now frame.now place (read.form_view form.now)) }
{
    match form {
        NoteForm::Assert(g) => Ok(assert_note(place, formula(alloc, tables, frame, g)?)),
        NoteForm::Fold(i) => Ok(fold_note(place, instance(alloc, tables, frame, i)?)),
        NoteForm::Unfold(i) => Ok(unfold_note(place, instance(alloc, tables, frame, i)?)),
    }
}

// The notes of an annotation behind other statements.
fn push_notes(
    alloc: Global,
    tables: &Tables,
    frame: &Frame,
    notes: &[parsed_tree::Note],
    made: &mut Items<Stmt>,
) -> Result<(), AllocError>
    ensures { OnOk result ((rest : gc0.Stmts) → stmts_before made.new rest ≡ stmts_before made.old (notes_tree tables.now frame.now (map read.note_view notes.now) rest)) }
{
    for part in notes {
        let part = note(alloc, tables, frame, part.place, &part.form)?;
        made.push(part)?;
    }
    Ok(())
}

fn block_statement(place: Place, statements: Items<Stmt>) -> Stmt
    ensures { stmt_view result ≡ gc0.block_at place (stmts_view statements) }
{
    stands(place, StmtForm::Block(statements))
}

// An annotation alone: its one note, or a block of them.
#[tactic(auto, using(crate::proofs::Blocks::one_alone, crate::proofs::Blocks::many_alone))]
fn alone(place: Place, notes: Items<Stmt>) -> Stmt
    ensures { stmt_view result ≡ alone place (stmts_view notes) }
{
    let mut notes = notes;
    if notes.len() == 1 {
        return notes.remove(0);
    }
    block_statement(place, notes)
}

fn annotation(
    alloc: Global,
    tables: &Tables,
    frame: &Frame,
    place: Place,
    notes: &[parsed_tree::Note],
) -> Result<Stmt, AllocError>
    ensures { IfOk result (λ r. stmt_view r ≡ alone place (notes_tree tables.now frame.now (map read.note_view notes.now) gc0.no_stmts)) }
{
    let mut made = Items::new(alloc);
    push_notes(alloc, tables, frame, notes, &mut made)?;
    Ok(alone(place, made))
}

fn loop_invariant(
    alloc: Global,
    tables: &Tables,
    frame: &Frame,
    annotations: &[Invariants],
) -> Result<Formula, AllocError>
    ensures { IfOk result (λ f. formula_view f ≡ joined tables.now frame.now (invariants (map read.invariants_view annotations.now))) }
{
    let formulas = invariants(alloc, annotations)?;
    joined(alloc, tables, frame, formulas.as_slice())
}

// An `if` before its `else`.
#[derive(Drop)]
struct IfHead {
    test: Boxed<Expr>,
    yes: Boxed<Stmt>,
}

fn branches(place: Place, head: IfHead, no: Option<Boxed<Stmt>>) -> Stmt
    ensures { stmt_view result ≡ gc0.if_at place (expr_view head.test) (stmt_view head.yes) (stmts_in (option_map stmt_view no)) }
{
    let form = StmtForm::If {
        condition: head.test.into_inner(),
        yes: head.yes,
        no,
    };
    stands(place, form)
}

// A `while` before its body.
#[derive(Drop)]
struct WhileHead {
    test: Boxed<Expr>,
    invariant: Formula,
}

fn while_statement(place: Place, head: WhileHead, body: Boxed<Stmt>) -> Stmt
    ensures { stmt_view result ≡ gc0.while_at place (formula_view head.invariant) (expr_view head.test) (stmt_view body) }
{
    let form = StmtForm::While {
        invariant: head.invariant,
        test: head.test.into_inner(),
        body,
    };
    stands(place, form)
}

// The parts of a `for` before its body.
#[derive(Drop)]
struct ForHead {
    first: Option<Boxed<Stmt>>,
    test: Boxed<Expr>,
    last: Option<Boxed<Stmt>>,
    invariant: Formula,
}

// The parts of a `for` behind its first one and its condition.
fn for_rest<'a>(
    alloc: Global,
    tables: &Tables,
    frame: &mut Frame<'a>,
    texts: &mut Items<Items<u8>>,
    first: Option<Boxed<Stmt>>,
    test: Boxed<Expr>,
    last: &'a Option<Boxed<Simple>>,
    annotations: &[Invariants],
) -> Result<ForHead, AllocError>
    ensures first { IfOk result (λ h. stmts_in (option_map stmt_view h.first) ≡ stmts_in (option_map stmt_view first)) }
    ensures test { IfOk result (λ h. expr_view h.test ≡ expr_view test) }
    ensures last { IfOk result (λ h. stmts_in (option_map stmt_view h.last) ≡ part_tree tables.now frame.old texts.old (option_map read.simple_view last.now)) }
    ensures invariant { IfOk result (λ h. formula_view h.invariant ≡ joined tables.now (part_frame tables.now frame.old (option_map read.simple_view last.now)) (invariants (map read.invariants_view annotations.now))) }
    ensures frame { OnOk result (frame.new ≡ part_frame tables.now frame.old (option_map read.simple_view last.now)) }
    ensures texts { OnOk result (texts.new ≡ part_texts texts.old (option_map read.simple_view last.now)) }
{
    let last = part(alloc, tables, frame, texts, last)?;
    let invariant = loop_invariant(alloc, tables, frame, annotations)?;
    Ok(ForHead {
        first,
        test,
        last,
        invariant,
    })
}

fn for_head<'a>(
    alloc: Global,
    tables: &Tables,
    frame: &mut Frame<'a>,
    texts: &mut Items<Items<u8>>,
    first: &'a Option<Boxed<Simple>>,
    test: &parsed_tree::Expr,
    last: &'a Option<Boxed<Simple>>,
    annotations: &[Invariants],
) -> Result<ForHead, AllocError>
    ensures first { IfOk result (λ h. stmts_in (option_map stmt_view h.first) ≡ part_tree tables.now frame.old texts.old (option_map read.simple_view first.now)) }
    ensures test { IfOk result (λ h. expr_view h.test ≡ expr_tree tables.now (part_frame tables.now frame.old (option_map read.simple_view first.now)) (part_texts texts.old (option_map read.simple_view first.now)) (read.expr_view test.now)) }
    ensures last { IfOk result (λ h. stmts_in (option_map stmt_view h.last) ≡ part_tree tables.now (part_frame tables.now frame.old (option_map read.simple_view first.now)) (expr_texts (part_texts texts.old (option_map read.simple_view first.now)) (read.expr_view test.now)) (option_map read.simple_view last.now)) }
    ensures invariant { IfOk result (λ h. formula_view h.invariant ≡ joined tables.now (part_frame tables.now (part_frame tables.now frame.old (option_map read.simple_view first.now)) (option_map read.simple_view last.now)) (invariants (map read.invariants_view annotations.now))) }
    ensures frame { OnOk result (frame.new ≡ part_frame tables.now (part_frame tables.now frame.old (option_map read.simple_view first.now)) (option_map read.simple_view last.now)) }
    ensures texts { OnOk result (texts.new ≡ part_texts (expr_texts (part_texts texts.old (option_map read.simple_view first.now)) (read.expr_view test.now)) (option_map read.simple_view last.now)) }
{
    let first = part(alloc, tables, frame, texts, first)?;
    let test = expression(alloc, tables, frame, texts, test)?.tree;
    for_rest(alloc, tables, frame, texts, first, test, last, annotations)
}

fn for_statement(place: Place, head: ForHead, body: Boxed<Stmt>) -> Stmt
    ensures { stmt_view result ≡ gc0.for_at place (stmts_in (option_map stmt_view head.first)) (expr_view head.test) (stmts_in (option_map stmt_view head.last)) (formula_view head.invariant) (stmt_view body) }
{
    let form = StmtForm::For {
        first: head.first,
        test: head.test.into_inner(),
        last: head.last,
        invariant: head.invariant,
        body,
    };
    stands(place, form)
}

fn return_statement(place: Place, value: Option<Boxed<Expr>>) -> Stmt
    ensures { stmt_view result ≡ gc0.return_at place (expr_in value) }
{
    stands(place, StmtForm::Return(unboxed(value)))
}

fn assert_statement(place: Place, test: Boxed<Expr>) -> Stmt
    ensures { stmt_view result ≡ gc0.assert_at place (expr_view test) }
{
    stands(place, StmtForm::Assert(test.into_inner()))
}

// `error` with a text, which is put behind the others.
fn raise_statement(
    alloc: Global,
    texts: &mut Items<Items<u8>>,
    place: Place,
    text: &[u8],
) -> Result<Stmt, AllocError>
    ensures tree { IfOk result (λ r. stmt_view r ≡ gc0.raise_at place (length texts.old)) }
    ensures texts { OnOk result (texts.new ≡ texts.old ++ text.now ∷ []) }
{
    let number = small(texts.len())?;
    texts.push(Items::from_slice(alloc, text)?)?;
    Ok(stands(place, StmtForm::Raise(number)))
}

fn push_made(part: Stmt, made: &mut Items<Stmt>) -> Result<(), AllocError>
    ensures { OnOk result ((rest : gc0.Stmts) → stmts_before made.new rest ≡ stmts_before made.old (gc0.stmt_and (stmt_view part) rest)) }
{
    made.push(part)?;
    Ok(())
}

#[cycle(statement)]
fn statement<'a>(
    alloc: Global,
    tables: &Tables,
    frame: &mut Frame<'a>,
    texts: &mut Items<Items<u8>>,
    s: &'a parsed_tree::Stmt,
) -> Result<Stmt, AllocError>
    ensures tree { IfOk result (λ r. stmt_view r ≡ stmt_tree tables.now frame.old texts.old (read.stmt_view s.now)) }
    ensures frame { OnOk result (frame.new ≡ stmt_frame tables.now frame.old (read.stmt_view s.now)) }
    ensures texts { OnOk result (texts.new ≡ stmt_texts texts.old (read.stmt_view s.now)) }
{
    match s {
        parsed_tree::Stmt::Simple(s) => simple(alloc, tables, frame, texts, s),
        parsed_tree::Stmt::Block { place, body } => {
            let body = statements(alloc, tables, frame, texts, body.as_slice())?;
            Ok(block_statement(*place, body))
        }
        parsed_tree::Stmt::If {
            place,
            test,
            yes,
            no,
        } => {
            let test = expression(alloc, tables, frame, texts, test)?.tree;
            let yes = boxed(alloc, tables, frame, texts, yes.get())?;
            let head = IfHead { test, yes };
            if_statement(alloc, tables, frame, texts, *place, head, no)
        }
        parsed_tree::Stmt::While {
            place,
            test,
            invariants,
            body,
        } => {
            let test = expression(alloc, tables, frame, texts, test)?.tree;
            let invariant = loop_invariant(alloc, tables, frame, invariants.as_slice())?;
            let head = WhileHead { test, invariant };
            while_loop(alloc, tables, frame, texts, *place, head, body.get())
        }
        parsed_tree::Stmt::For {
            place,
            first,
            test,
            last,
            invariants,
            body,
        } => {
            let invariants = invariants.as_slice();
            let head = for_head(alloc, tables, frame, texts, first, test, last, invariants)?;
            for_loop(alloc, tables, frame, texts, *place, head, body.get())
        }
        parsed_tree::Stmt::Return { place, value } => {
            let value = optional(alloc, tables, frame, texts, value)?;
            Ok(return_statement(*place, value))
        }
        parsed_tree::Stmt::Assert { place, test } => {
            let test = expression(alloc, tables, frame, texts, test)?;
            Ok(assert_statement(*place, test.tree))
        }
        parsed_tree::Stmt::Error { place, text } => {
            raise_statement(alloc, texts, *place, text.bytes.as_slice())
        }
        parsed_tree::Stmt::Notes { place, clauses } => {
            annotation(alloc, tables, frame, *place, clauses.as_slice())
        }
    }
}

// An `if` behind its condition and its first branch.
#[cycle(statement)]
fn if_statement<'a>(
    alloc: Global,
    tables: &Tables,
    frame: &mut Frame<'a>,
    texts: &mut Items<Items<u8>>,
    place: Place,
    head: IfHead,
    no: &'a Option<Boxed<parsed_tree::Stmt>>,
) -> Result<Stmt, AllocError>
    ensures tree { IfOk result (λ r. stmt_view r ≡ gc0.if_at place (expr_view head.test) (stmt_view head.yes) (else_tree tables.now frame.old texts.old (read.stmts_in (option_map read.stmt_view no.now)))) }
    ensures frame { OnOk result (frame.new ≡ stmts_frame tables.now frame.old (read.stmts_in (option_map read.stmt_view no.now))) }
    ensures texts { OnOk result (texts.new ≡ stmts_texts texts.old (read.stmts_in (option_map read.stmt_view no.now))) }
{
    let no = otherwise(alloc, tables, frame, texts, no)?;
    Ok(branches(place, head, no))
}

// A `while` before its body.
#[cycle(statement)]
fn while_loop<'a>(
    alloc: Global,
    tables: &Tables,
    frame: &mut Frame<'a>,
    texts: &mut Items<Items<u8>>,
    place: Place,
    head: WhileHead,
    body: &'a parsed_tree::Stmt,
) -> Result<Stmt, AllocError>
    ensures tree { IfOk result (λ r. stmt_view r ≡ gc0.while_at place (formula_view head.invariant) (expr_view head.test) (stmt_tree tables.now frame.old texts.old (read.stmt_view body.now))) }
    ensures frame { OnOk result (frame.new ≡ stmt_frame tables.now frame.old (read.stmt_view body.now)) }
    ensures texts { OnOk result (texts.new ≡ stmt_texts texts.old (read.stmt_view body.now)) }
{
    let body = boxed(alloc, tables, frame, texts, body)?;
    Ok(while_statement(place, head, body))
}

// A `for` before its body.
#[cycle(statement)]
fn for_loop<'a>(
    alloc: Global,
    tables: &Tables,
    frame: &mut Frame<'a>,
    texts: &mut Items<Items<u8>>,
    place: Place,
    head: ForHead,
    body: &'a parsed_tree::Stmt,
) -> Result<Stmt, AllocError>
    ensures tree { IfOk result (λ r. stmt_view r ≡ gc0.for_at place (stmts_in (option_map stmt_view head.first)) (expr_view head.test) (stmts_in (option_map stmt_view head.last)) (formula_view head.invariant) (stmt_tree tables.now frame.old texts.old (read.stmt_view body.now))) }
    ensures frame { OnOk result (frame.new ≡ stmt_frame tables.now frame.old (read.stmt_view body.now)) }
    ensures texts { OnOk result (texts.new ≡ stmt_texts texts.old (read.stmt_view body.now)) }
{
    let body = boxed(alloc, tables, frame, texts, body)?;
    Ok(for_statement(place, head, body))
}

#[cycle(statement)]
fn boxed<'a>(
    alloc: Global,
    tables: &Tables,
    frame: &mut Frame<'a>,
    texts: &mut Items<Items<u8>>,
    s: &'a parsed_tree::Stmt,
) -> Result<Boxed<Stmt>, AllocError>
    ensures tree { IfOk result (λ r. stmt_view r ≡ stmt_tree tables.now frame.old texts.old (read.stmt_view s.now)) }
    ensures frame { OnOk result (frame.new ≡ stmt_frame tables.now frame.old (read.stmt_view s.now)) }
    ensures texts { OnOk result (texts.new ≡ stmt_texts texts.old (read.stmt_view s.now)) }
{
    let made = statement(alloc, tables, frame, texts, s)?;
    Boxed::new(alloc, made)
}

// The statement of an `else`, where there is one.
#[cycle(statement)]
fn otherwise<'a>(
    alloc: Global,
    tables: &Tables,
    frame: &mut Frame<'a>,
    texts: &mut Items<Items<u8>>,
    no: &'a Option<Boxed<parsed_tree::Stmt>>,
) -> Result<Option<Boxed<Stmt>>, AllocError>
    ensures tree { IfOk result (λ r. stmts_in (option_map stmt_view r) ≡ else_tree tables.now frame.old texts.old (read.stmts_in (option_map read.stmt_view no.now))) }
    ensures frame { OnOk result (frame.new ≡ stmts_frame tables.now frame.old (read.stmts_in (option_map read.stmt_view no.now))) }
    ensures texts { OnOk result (texts.new ≡ stmts_texts texts.old (read.stmts_in (option_map read.stmt_view no.now))) }
{
    match no {
        Some(s) => Ok(Some(boxed(alloc, tables, frame, texts, s.get())?)),
        None => Ok(None),
    }
}

// A statement behind others; the notes of an annotation one by one.
#[cycle(statement)]
fn push_statement<'a>(
    alloc: Global,
    tables: &Tables,
    frame: &mut Frame<'a>,
    texts: &mut Items<Items<u8>>,
    s: &'a parsed_tree::Stmt,
    made: &mut Items<Stmt>,
) -> Result<(), AllocError>
    ensures tree { OnOk result ((rest : gc0.Stmts) → stmts_before made.new rest ≡ stmts_before made.old (before tables.now frame.old (read.stmt_view s.now) (stmt_tree tables.now frame.old texts.old (read.stmt_view s.now)) rest)) }
    ensures frame { OnOk result (frame.new ≡ stmt_frame tables.now frame.old (read.stmt_view s.now)) }
    ensures texts { OnOk result (texts.new ≡ stmt_texts texts.old (read.stmt_view s.now)) }
{
    match s {
        parsed_tree::Stmt::Notes { clauses, .. } => {
            push_notes(alloc, tables, frame, clauses.as_slice(), made)?;
            Ok(())
        }
        _ => {
            let part = statement(alloc, tables, frame, texts, s)?;
            push_made(part, made)?;
            Ok(())
        }
    }
}

/// Statements one after another, with numbers in place of names. What they declare is put behind
/// the locals of the frame, and their texts behind the others.
#[cycle(statement)]
pub fn statements<'a>(
    alloc: Global,
    tables: &Tables,
    frame: &mut Frame<'a>,
    texts: &mut Items<Items<u8>>,
    ss: &'a [parsed_tree::Stmt],
) -> Result<Items<Stmt>, AllocError>
    ensures tree { IfOk result (λ r. stmts_view r ≡ stmts_tree tables.now frame.old texts.old (read.stmts_view ss.now)) }
    ensures frame { OnOk result (frame.new ≡ stmts_frame tables.now frame.old (read.stmts_view ss.now)) }
    ensures texts { OnOk result (texts.new ≡ stmts_texts texts.old (read.stmts_view ss.now)) }
{
    let mut made = Items::new(alloc);
    for s in ss {
        push_statement(alloc, tables, frame, texts, s, &mut made)?;
    }
    Ok(made)
}
