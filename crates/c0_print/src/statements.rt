//! Statements and annotations.

ghost use Rattle.std.specs.Prelude.{◌≡◌, ◌++◌, map, OnOk, codes};
ghost use Rattle.std.specs.Option.{option_map};
ghost use Rattle.parsed_tree.specs.Views.{expr_view, formula_view, instance_view, note_view, invariant_view, invariants_view, value_view, simple_view, stmt_view, stmts_view, stmts_in};
ghost use Rattle.c0_grammar.specs.Texts.{tree_option};
ghost use Rattle.c0_layout.specs.Lists.{all_text, spaced_text, joined_text, option_text};
ghost use Rattle.c0_layout.specs.Layout.{formula_text, instance_text, note_text, invariant_text, invariants_text, annotation_text, simple_text, value_text, test_text, for_text, return_text, assert_text, error_text, line_text, lines_text};
ghost use Rattle.c0_print.specs.Printing.{written, args_of, formula_of, note_of, invariant_of, invariants_of, simple_of, initial_text, line_of, lines_of, else_text};

use crate::expressions::{push_args, push_expr};
use crate::types::push_typed;
use c0_layout::{push, push_string, step_bytes, update_bytes};
use gc0_base::Place;
use parsed_tree::{
    Expr, Formula, Instance, Invariant, Invariants, Note, NoteForm, Simple, Stmt, Text, TypeName,
};
use sqlite_items::Boxed;
use std::alloc::AllocError;

/// A formula.
pub(crate) fn push_formula(text: &mut Vec<u8>, formula: &Formula) -> Result<(), AllocError>
    ensures { OnOk result (text.new.items ≡ text.old.items ++ formula_text (formula_of (formula_view formula.now))) }
{
    if formula.imprecise {
        match &formula.parts {
            None => push(text, b"?"),
            Some(parts) => {
                push(text, b"? && ")?;
                push_expr(text, parts)
            }
        }
    } else {
        match &formula.parts {
            None => push(text, b"true"),
            Some(parts) => push_expr(text, parts),
        }
    }
}

fn push_instance(text: &mut Vec<u8>, instance: &Instance) -> Result<(), AllocError>
    ensures { OnOk result (text.new.items ≡ text.old.items ++ instance_text instance.now.name.name (args_of (instance_view instance.now).arguments)) }
{
    push(text, instance.name.name.as_slice())?;
    push(text, b"(")?;
    push_args(text, instance.arguments.as_slice())?;
    push(text, b");")
}

fn push_note(text: &mut Vec<u8>, note: &Note) -> Result<(), AllocError>
    ensures { OnOk result (text.new.items ≡ text.old.items ++ note_text (note_of (note_view note.now))) }
{
    match &note.form {
        NoteForm::Assert(formula) => {
            push(text, b"assert ")?;
            push_formula(text, formula)?;
            push(text, b";")
        }
        NoteForm::Fold(instance) => {
            push(text, b"fold ")?;
            push_instance(text, instance)
        }
        NoteForm::Unfold(instance) => {
            push(text, b"unfold ")?;
            push_instance(text, instance)
        }
    }
}

fn push_more_notes(text: &mut Vec<u8>, notes: &[Note]) -> Result<(), AllocError>
    ensures { OnOk result (text.new.items ≡ text.old.items ++ spaced_text note_text (map note_of (map note_view notes.now))) }
{
    for note in notes {
        push(text, b" ")?;
        push_note(text, note)?;
    }
    Ok(())
}

fn push_joined_notes(text: &mut Vec<u8>, notes: &[Note]) -> Result<(), AllocError>
    ensures { OnOk result (text.new.items ≡ text.old.items ++ joined_text note_text (map note_of (map note_view notes.now))) }
{
    match notes {
        [] => Ok(()),
        [first, rest @ ..] => {
            push_note(text, first)?;
            push_more_notes(text, rest)
        }
    }
}

fn push_notes(text: &mut Vec<u8>, notes: &[Note]) -> Result<(), AllocError>
    ensures { OnOk result (text.new.items ≡ text.old.items ++ annotation_text note_text (map note_of (map note_view notes.now))) }
{
    push(text, b"//@")?;
    push_joined_notes(text, notes)?;
    push(text, b"\n")
}

fn push_invariant(text: &mut Vec<u8>, invariant: &Invariant) -> Result<(), AllocError>
    ensures { OnOk result (text.new.items ≡ text.old.items ++ invariant_text (invariant_of (invariant_view invariant.now))) }
{
    push(text, b"loop_invariant ")?;
    push_formula(text, &invariant.formula)?;
    push(text, b";")
}

fn push_more_invariants(text: &mut Vec<u8>, clauses: &[Invariant]) -> Result<(), AllocError>
    ensures { OnOk result (text.new.items ≡ text.old.items ++ spaced_text invariant_text (map invariant_of (map invariant_view clauses.now))) }
{
    for clause in clauses {
        push(text, b" ")?;
        push_invariant(text, clause)?;
    }
    Ok(())
}

fn push_joined_invariants(text: &mut Vec<u8>, clauses: &[Invariant]) -> Result<(), AllocError>
    ensures { OnOk result (text.new.items ≡ text.old.items ++ joined_text invariant_text (map invariant_of (map invariant_view clauses.now))) }
{
    match clauses {
        [] => Ok(()),
        [first, rest @ ..] => {
            push_invariant(text, first)?;
            push_more_invariants(text, rest)
        }
    }
}

fn push_annotation(text: &mut Vec<u8>, annotation: &Invariants) -> Result<(), AllocError>
    ensures { OnOk result (text.new.items ≡ text.old.items ++ invariants_text (invariants_of (invariants_view annotation.now))) }
{
    push(text, b"//@")?;
    push_joined_invariants(text, annotation.clauses.as_slice())?;
    push(text, b"\n")
}

fn push_invariants(text: &mut Vec<u8>, annotations: &[Invariants]) -> Result<(), AllocError>
    ensures { OnOk result (text.new.items ≡ text.old.items ++ all_text invariants_text (map invariants_of (map invariants_view annotations.now))) }
{
    for annotation in annotations {
        push_annotation(text, annotation)?;
    }
    Ok(())
}

// What a declaration sets its local to.
fn push_initial(text: &mut Vec<u8>, value: &Option<(Place, Expr)>) -> Result<(), AllocError>
    ensures { OnOk result (text.new.items ≡ text.old.items ++ initial_text (option_map value_view value.now)) }
{
    match value {
        None => Ok(()),
        Some((_, e)) => {
            push(text, b" = ")?;
            push_expr(text, e)
        }
    }
}

#[tactic(auto, using(crate::proofs::Joins::initial_joined))]
fn push_simple(text: &mut Vec<u8>, simple: &Simple) -> Result<(), AllocError>
    ensures { OnOk result (text.new.items ≡ text.old.items ++ simple_text (simple_of (simple_view simple.now))) }
{
    match simple {
        Simple::Declare { typed, name, value } => {
            push_typed(text, typed, name.name.as_slice())?;
            push_initial(text, value)
        }
        Simple::Assign {
            target,
            place: _,
            operator,
            value,
        } => {
            push_expr(text, target)?;
            push(text, update_bytes(*operator))?;
            push_expr(text, value)
        }
        Simple::Step {
            target,
            place: _,
            operator,
        } => {
            push_expr(text, target)?;
            push(text, step_bytes(*operator))
        }
        Simple::Plain(e) => push_expr(text, e),
    }
}

fn push_simple_line(text: &mut Vec<u8>, simple: &Simple) -> Result<(), AllocError>
    ensures { OnOk result (text.new.items ≡ text.old.items ++ (simple_text (simple_of (simple_view simple.now)) ++ codes ";\n")) }
{
    push_simple(text, simple)?;
    push(text, b";\n")
}

// A part of a `for`.
fn push_part(text: &mut Vec<u8>, part: &Option<Boxed<Simple>>) -> Result<(), AllocError>
    ensures { OnOk result (text.new.items ≡ text.old.items ++ option_text simple_text (tree_option simple_of (option_map simple_view part.now))) }
{
    match part {
        None => Ok(()),
        Some(simple) => push_simple(text, simple.get()),
    }
}

// The head of an `if` or a `while`.
fn push_test(text: &mut Vec<u8>, word: &[u8], test: &Expr) -> Result<(), AllocError>
    ensures { OnOk result (text.new.items ≡ text.old.items ++ test_text word.now (written (expr_view test.now))) }
{
    push(text, word)?;
    push(text, b" (")?;
    push_expr(text, test)?;
    push(text, b")\n")
}

fn push_for(
    text: &mut Vec<u8>,
    first: &Option<Boxed<Simple>>,
    test: &Expr,
    last: &Option<Boxed<Simple>>,
) -> Result<(), AllocError>
    ensures { OnOk result (text.new.items ≡ text.old.items ++ for_text (tree_option simple_of (option_map simple_view first.now)) (written (expr_view test.now)) (tree_option simple_of (option_map simple_view last.now))) }
{
    push(text, b"for (")?;
    push_part(text, first)?;
    push(text, b";")?;
    push_expr(text, test)?;
    push(text, b";")?;
    push_part(text, last)?;
    push(text, b")\n")
}

fn push_value(text: &mut Vec<u8>, value: &Option<Expr>) -> Result<(), AllocError>
    ensures { OnOk result (text.new.items ≡ text.old.items ++ value_text (tree_option written (option_map expr_view value.now))) }
{
    match value {
        None => Ok(()),
        Some(e) => {
            push(text, b" ")?;
            push_expr(text, e)
        }
    }
}

fn push_return(text: &mut Vec<u8>, value: &Option<Expr>) -> Result<(), AllocError>
    ensures { OnOk result (text.new.items ≡ text.old.items ++ return_text (tree_option written (option_map expr_view value.now))) }
{
    push(text, b"return")?;
    push_value(text, value)?;
    push(text, b";\n")
}

fn push_assert(text: &mut Vec<u8>, test: &Expr) -> Result<(), AllocError>
    ensures { OnOk result (text.new.items ≡ text.old.items ++ assert_text (written (expr_view test.now))) }
{
    push(text, b"assert(")?;
    push_expr(text, test)?;
    push(text, b");\n")
}

fn push_error(text: &mut Vec<u8>, literal: &Text) -> Result<(), AllocError>
    ensures { OnOk result (text.new.items ≡ text.old.items ++ error_text literal.now.bytes) }
{
    push(text, b"error(")?;
    push_string(text, literal.bytes.as_slice())?;
    push(text, b");\n")
}

#[cycle(statement)]
fn push_stmt(text: &mut Vec<u8>, statement: &Stmt) -> Result<(), AllocError>
    ensures { OnOk result (text.new.items ≡ text.old.items ++ line_text (line_of (stmt_view statement.now))) }
{
    match statement {
        Stmt::Simple(simple) => push_simple_line(text, simple),
        Stmt::Block { place: _, body } => {
            push(text, b"{\n")?;
            push_stmts(text, body.as_slice())?;
            push(text, b"}\n")
        }
        Stmt::If {
            place: _,
            test,
            yes,
            no,
        } => {
            push_test(text, b"if", test)?;
            push_stmt(text, yes.get())?;
            push_else(text, no)
        }
        Stmt::While {
            place: _,
            test,
            invariants,
            body,
        } => {
            push_test(text, b"while", test)?;
            push_invariants(text, invariants.as_slice())?;
            push_stmt(text, body.get())
        }
        Stmt::For {
            place: _,
            first,
            test,
            last,
            invariants,
            body,
        } => {
            push_for(text, first, test, last)?;
            push_invariants(text, invariants.as_slice())?;
            push_stmt(text, body.get())
        }
        Stmt::Return { place: _, value } => push_return(text, value),
        Stmt::Assert { place: _, test } => push_assert(text, test),
        Stmt::Error {
            place: _,
            text: literal,
        } => push_error(text, literal),
        Stmt::Notes { place: _, clauses } => push_notes(text, clauses.as_slice()),
    }
}

// The `else` of an `if`, where it has one.
#[cycle(statement)]
fn push_else(text: &mut Vec<u8>, no: &Option<Boxed<Stmt>>) -> Result<(), AllocError>
    ensures { OnOk result (text.new.items ≡ text.old.items ++ else_text (stmts_in (option_map stmt_view no.now))) }
{
    match no {
        None => Ok(()),
        Some(statement) => {
            push(text, b"else\n")?;
            push_stmt(text, statement.get())
        }
    }
}

/// Statements, each on lines of its own.
#[cycle(statement)]
pub(crate) fn push_stmts(text: &mut Vec<u8>, statements: &[Stmt]) -> Result<(), AllocError>
    ensures { OnOk result (text.new.items ≡ text.old.items ++ lines_text (lines_of (stmts_view statements.now))) }
{
    for statement in statements {
        push_stmt(text, statement)?;
    }
    Ok(())
}
