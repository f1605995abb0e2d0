//! Expressions, conjuncts and formulas over numbers.

ghost use Rattle.std.specs.Prelude.{◌≡◌, [], ◌++◌, slice_get, codes, OnOk, IfOk};
ghost use Rattle.std.specs.Option.{option_map};
ghost use Rattle.gc0_tree.specs.Tree.{Conjuncts, no_parts};
ghost use Rattle.gc0_tree.specs.Views.{expr_view, exprs_view, trees_in, conjunct_view, conjuncts_view, formula_view};
ghost use Rattle.c0_grammar.specs.Written.{before, called, arrow_to};
ghost use Rattle.c0_grammar.specs.Allowed.{height, is_primary};
ghost use Rattle.c0_layout.specs.Layout.{alloc_text, begins_minus, expr_text, args_text, more_text};
ghost use Rattle.c0_layout.specs.Rounding.{nowhere, is_wide, closed, is_no_primary, based};
ghost use Rattle.formula_print.specs.Numbered.{locals_of, text_at, library_call, struct_type, shown, shown_args, shown_more, shown_acc, shown_instance, or_true, parts_text, conjunct_text, formula_text};

use crate::names::{
    field_name, function_name, locals_of, name_in, operator_of, pointed_field, predicate_name,
    shape_of, struct_name, text_at, unary_of,
};
use crate::scope::Scope;
use c0_layout::{
    is_minus, operator_bytes, push, push_close, push_gap, push_literal, push_open, push_text_call,
    rank_of, truth_bytes, unary_bytes,
};
use gc0_tree::{Conjunct, Expr, ExprForm, Formula, Program};
use parsed_tree::UnaryOperator;
use sqlite_items::Boxed;
use std::alloc::{AllocError, Global};

// 0 for what needs no parentheses behind a unary operator, else one more than its operator's rank.
fn height_of(program: &Program, scope: Scope, e: &Expr) -> u32
    ensures { result ≡ height (shown program.now scope (expr_view e.now)) }
{
    match &e.form {
        ExprForm::Number(_) => 0,
        ExprForm::Truth(_) => 0,
        ExprForm::Null => 0,
        ExprForm::Local(_) => 0,
        ExprForm::ResultValue => 0,
        ExprForm::Unary(_, _) => 0,
        ExprForm::Binary(op, _, _) => rank_of(operator_of(*op)) + 1,
        ExprForm::Both(_, _) => 9,
        ExprForm::Either(_, _) => 10,
        ExprForm::Choose(_, _, _) => 11,
        ExprForm::Read {
            base: _,
            of_struct: _,
            field: _,
        } => 0,
        ExprForm::Call {
            function: _,
            arguments: _,
        } => 0,
        ExprForm::Library {
            call: _,
            argument: _,
            text: _,
        } => 0,
        ExprForm::Alloc(_) => 0,
    }
}

// Whether it needs parentheses where nothing may stand that binds less than this.
fn is_wide(program: &Program, scope: Scope, most: u32, e: &Expr) -> bool
    ensures { result ≡ is_wide most (shown program.now scope (expr_view e.now)) }
{
    height_of(program, scope, e) > most
}

// Whether it needs parentheses before a `->`.
fn is_no_primary(program: &Program, scope: Scope, e: &Expr) -> bool
    ensures { result ≡ is_no_primary (shown program.now scope (expr_view e.now)) }
{
    match &e.form {
        ExprForm::Number(_) => false,
        ExprForm::Truth(_) => false,
        ExprForm::Null => false,
        ExprForm::Local(_) => false,
        ExprForm::ResultValue => false,
        ExprForm::Unary(_, _) => true,
        ExprForm::Binary(_, _, _) => true,
        ExprForm::Both(_, _) => true,
        ExprForm::Either(_, _) => true,
        ExprForm::Choose(_, _, _) => true,
        ExprForm::Read {
            base: _,
            of_struct: _,
            field: _,
        } => false,
        ExprForm::Call {
            function: _,
            arguments: _,
        } => false,
        ExprForm::Library {
            call: _,
            argument: _,
            text: _,
        } => false,
        ExprForm::Alloc(_) => false,
    }
}

// Whether it begins with a unary `-`, once it has the parentheses that a unary operator asks for.
fn begins_minus(program: &Program, scope: Scope, e: &Expr) -> bool
    ensures { result ≡ begins_minus (closed 0 (shown program.now scope (expr_view e.now))) }
{
    match &e.form {
        ExprForm::Number(_) => false,
        ExprForm::Truth(_) => false,
        ExprForm::Null => false,
        ExprForm::Local(_) => false,
        ExprForm::ResultValue => false,
        ExprForm::Unary(op, _) => is_minus(unary_of(*op)),
        ExprForm::Binary(_, _, _) => false,
        ExprForm::Both(_, _) => false,
        ExprForm::Either(_, _) => false,
        ExprForm::Choose(_, _, _) => false,
        ExprForm::Read {
            base: _,
            of_struct: _,
            field: _,
        } => false,
        ExprForm::Call {
            function: _,
            arguments: _,
        } => false,
        ExprForm::Library {
            call: _,
            argument: _,
            text: _,
        } => false,
        ExprForm::Alloc(_) => false,
    }
}

fn push_alloc(text: &mut Vec<u8>, name: &[u8]) -> Result<(), AllocError>
    ensures { OnOk result (text.new.items ≡ text.old.items ++ alloc_text (struct_type name.now)) }
{
    push(text, b"alloc(struct ")?;
    push(text, name)?;
    push(text, b")")
}

#[cycle(shown)]
fn push_expr(
    text: &mut Vec<u8>,
    program: &Program,
    scope: Scope,
    e: &Expr,
) -> Result<(), AllocError>
    ensures { OnOk result (text.new.items ≡ text.old.items ++ expr_text (shown program.now scope (expr_view e.now))) }
{
    match &e.form {
        ExprForm::Number(word) => push_literal(text, *word),
        ExprForm::Truth(truth) => push(text, truth_bytes(*truth)),
        ExprForm::Null => push(text, b"NULL"),
        ExprForm::Local(number) => push(text, name_in(locals_of(program, scope), *number)),
        ExprForm::ResultValue => push(text, b"\\result"),
        ExprForm::Unary(op, x) => push_unary(text, program, scope, unary_of(*op), x),
        ExprForm::Binary(op, x, y) => {
            let operator = operator_of(*op);
            push_closed(text, program, scope, rank_of(operator) + 1, x)?;
            push(text, operator_bytes(operator))?;
            push_closed(text, program, scope, rank_of(operator), y)
        }
        ExprForm::Both(x, y) => {
            push_closed(text, program, scope, 9, x)?;
            push(text, b" && ")?;
            push_closed(text, program, scope, 8, y)
        }
        ExprForm::Either(x, y) => {
            push_closed(text, program, scope, 10, x)?;
            push(text, b" || ")?;
            push_closed(text, program, scope, 9, y)
        }
        ExprForm::Choose(x, y, z) => {
            push_closed(text, program, scope, 10, x)?;
            push(text, b" ? ")?;
            push_expr(text, program, scope, y.get())?;
            push(text, b" : ")?;
            push_expr(text, program, scope, z.get())
        }
        ExprForm::Read {
            base,
            of_struct,
            field,
        } => push_arrow(
            text,
            program,
            scope,
            base,
            field_name(program, *of_struct, *field),
        ),
        ExprForm::Call {
            function,
            arguments,
        } => push_call(
            text,
            program,
            scope,
            function_name(program, *function),
            arguments.as_slice(),
        ),
        ExprForm::Library {
            call,
            argument,
            text: number,
        } => { push_library(text, program, scope, call.name(), argument, *number) }
        ExprForm::Alloc(of_struct) => push_alloc(text, struct_name(program, *of_struct)),
    }
}

// An operator before its operand.
#[cycle(shown)]
fn push_unary(
    text: &mut Vec<u8>,
    program: &Program,
    scope: Scope,
    operator: UnaryOperator,
    x: &Boxed<Expr>,
) -> Result<(), AllocError>
    ensures { OnOk result (text.new.items ≡ text.old.items ++ expr_text (before nowhere operator (closed 0 (shown program.now scope (expr_view x.now))))) }
{
    push(text, unary_bytes(operator))?;
    push_gap(text, operator, begins_minus(program, scope, x.get()))?;
    push_closed(text, program, scope, 0, x)
}

#[cycle(shown)]
fn push_arrow(
    text: &mut Vec<u8>,
    program: &Program,
    scope: Scope,
    base: &Boxed<Expr>,
    field: &[u8],
) -> Result<(), AllocError>
    ensures { OnOk result (text.new.items ≡ text.old.items ++ expr_text (arrow_to (based (shown program.now scope (expr_view base.now))) nowhere nowhere field.now)) }
{
    push_based(text, program, scope, base)?;
    push(text, b"->")?;
    push(text, field)
}

#[cycle(shown)]
fn push_call(
    text: &mut Vec<u8>,
    program: &Program,
    scope: Scope,
    name: &[u8],
    arguments: &[Expr],
) -> Result<(), AllocError>
    ensures { OnOk result (text.new.items ≡ text.old.items ++ expr_text (called nowhere name.now nowhere (shown_args program.now scope (exprs_view arguments.now)) nowhere)) }
{
    push(text, name)?;
    push(text, b"(")?;
    push_args(text, program, scope, arguments)?;
    push(text, b")")
}

// In parentheses where it binds less than may stand there.
#[tactic(auto, using(c0_layout::specs::Rounding::rounded_text))]
#[cycle(shown)]
fn push_closed(
    text: &mut Vec<u8>,
    program: &Program,
    scope: Scope,
    most: u32,
    part: &Boxed<Expr>,
) -> Result<(), AllocError>
    ensures { OnOk result (text.new.items ≡ text.old.items ++ expr_text (closed most (shown program.now scope (expr_view part.now)))) }
{
    let wide = is_wide(program, scope, most, part.get());
    push_open(text, wide)?;
    push_expr(text, program, scope, part.get())?;
    push_close(text, wide)
}

// In parentheses where it may not stand before a `->`.
#[tactic(auto, using(c0_layout::specs::Rounding::rounded_text))]
#[cycle(shown)]
fn push_based(
    text: &mut Vec<u8>,
    program: &Program,
    scope: Scope,
    part: &Boxed<Expr>,
) -> Result<(), AllocError>
    ensures { OnOk result (text.new.items ≡ text.old.items ++ expr_text (based (shown program.now scope (expr_view part.now)))) }
{
    let rounded = is_no_primary(program, scope, part.get());
    push_open(text, rounded)?;
    push_expr(text, program, scope, part.get())?;
    push_close(text, rounded)
}

// A library call: with a text, or with an argument or none.
#[cycle(shown)]
fn push_library(
    text: &mut Vec<u8>,
    program: &Program,
    scope: Scope,
    name: &[u8],
    argument: &Option<Boxed<Expr>>,
    number: Option<u32>,
) -> Result<(), AllocError>
    ensures { OnOk result (text.new.items ≡ text.old.items ++ expr_text (library_call program.now name.now (shown_args program.now scope (trees_in (option_map expr_view argument.now))) number)) }
{
    if let Some(number) = number {
        return push_text_call(text, name, text_at(program, number));
    }
    push(text, name)?;
    push(text, b"(")?;
    match argument {
        None => push(text, b")"),
        Some(e) => {
            push_expr(text, program, scope, e.get())?;
            push(text, b")")
        }
    }
}

#[tactic(auto, using(c0_layout::specs::Behind::behind_comma, crate::proofs::Behind::shown_behind))]
#[cycle(shown)]
fn push_args(
    text: &mut Vec<u8>,
    program: &Program,
    scope: Scope,
    arguments: &[Expr],
) -> Result<(), AllocError>
    ensures { OnOk result (text.new.items ≡ text.old.items ++ args_text (shown_args program.now scope (exprs_view arguments.now))) }
{
    let mut front: &[u8] = b"";
    for e in arguments {
        push(text, front)?;
        push_expr(text, program, scope, e)?;
        front = b", ";
    }
    Ok(())
}

// In parentheses where it binds less than may stand there.
#[tactic(auto, using(c0_layout::specs::Rounding::rounded_text))]
fn push_within(
    text: &mut Vec<u8>,
    program: &Program,
    scope: Scope,
    most: u32,
    e: &Expr,
) -> Result<(), AllocError>
    ensures { OnOk result (text.new.items ≡ text.old.items ++ expr_text (closed most (shown program.now scope (expr_view e.now)))) }
{
    let wide = is_wide(program, scope, most, e);
    push_open(text, wide)?;
    push_expr(text, program, scope, e)?;
    push_close(text, wide)
}

fn push_acc(
    text: &mut Vec<u8>,
    program: &Program,
    scope: Scope,
    path: &Expr,
    field: u32,
) -> Result<(), AllocError>
    ensures { OnOk result (text.new.items ≡ text.old.items ++ expr_text (shown_acc program.now scope (expr_view path.now) field)) }
{
    push(text, b"acc(")?;
    push_expr(text, program, scope, path)?;
    push(text, b"->")?;
    push(
        text,
        pointed_field(program, shape_of(program, scope, path), field),
    )?;
    push(text, b")")
}

fn push_instance(
    text: &mut Vec<u8>,
    program: &Program,
    scope: Scope,
    predicate: u32,
    arguments: &[Expr],
) -> Result<(), AllocError>
    ensures { OnOk result (text.new.items ≡ text.old.items ++ expr_text (shown_instance program.now scope predicate (exprs_view arguments.now))) }
{
    push_call(
        text,
        program,
        scope,
        predicate_name(program, predicate),
        arguments,
    )
}

// What stands for no conjunct at all.
fn push_or_true(text: &mut Vec<u8>, conjuncts: &[Conjunct]) -> Result<(), AllocError>
    ensures { OnOk result (text.new.items ≡ text.old.items ++ or_true (conjuncts_view conjuncts.now)) }
{
    match conjuncts {
        [] => push(text, b"true"),
        [_, ..] => Ok(()),
    }
}

// One conjunct, behind what joins it to those before it.
#[cycle(conjuncts)]
fn push_conjunct(
    text: &mut Vec<u8>,
    program: &Program,
    scope: Scope,
    front: &[u8],
    conjunct: &Conjunct,
) -> Result<(), AllocError>
    ensures { OnOk result ((rest : Conjuncts) → text.new.items ++ parts_text program.now scope (codes " && ") rest ≡ text.old.items ++ parts_text program.now scope front.now (conjunct_view conjunct.now rest)) }
{
    push(text, front)?;
    match conjunct {
        Conjunct::Value(e) => push_within(text, program, scope, 8, e),
        Conjunct::Acc(path, field) => push_acc(text, program, scope, path, *field),
        Conjunct::Instance(_, predicate, arguments) => {
            push_instance(text, program, scope, *predicate, arguments.as_slice())
        }
        Conjunct::Choice(_, condition, these, those) => {
            push(text, b"(")?;
            push_within(text, program, scope, 10, condition)?;
            push(text, b" ? ")?;
            push_or_true(text, these.as_slice())?;
            push_parts(text, program, scope, b"", these.as_slice())?;
            push(text, b" : ")?;
            push_or_true(text, those.as_slice())?;
            push_parts(text, program, scope, b"", those.as_slice())?;
            push(text, b")")
        }
    }
}

// Conjuncts, joined by ` && `, the first behind what joins it to those before it.
#[cycle(conjuncts)]
fn push_parts(
    text: &mut Vec<u8>,
    program: &Program,
    scope: Scope,
    first_front: &[u8],
    conjuncts: &[Conjunct],
) -> Result<(), AllocError>
    ensures { OnOk result (text.new.items ≡ text.old.items ++ parts_text program.now scope first_front.now (conjuncts_view conjuncts.now)) }
{
    let mut front = first_front;
    for conjunct in conjuncts {
        push_conjunct(text, program, scope, front, conjunct)?;
        front = b" && ";
    }
    Ok(())
}

fn push_formula(
    text: &mut Vec<u8>,
    program: &Program,
    scope: Scope,
    formula: &Formula,
) -> Result<(), AllocError>
    ensures { OnOk result (text.new.items ≡ text.old.items ++ formula_text program.now scope (formula_view formula.now)) }
{
    let parts = formula.parts.as_slice();
    if formula.imprecise {
        push(text, b"?")?;
        push_parts(text, program, scope, b" && ", parts)
    } else {
        push_or_true(text, parts)?;
        push_parts(text, program, scope, b"", parts)
    }
}

/// The text of a formula of a program, with the names of a scope. `?` stands first, conjuncts are
/// joined by ` && `, and round each choice stand parentheses. A number that the program does not
/// have has no name.
pub fn print_formula(
    alloc: Global,
    program: &Program,
    scope: Scope,
    formula: &Formula,
) -> Result<Vec<u8>, AllocError>
    ensures text { IfOk result (λ bytes. bytes.items ≡ formula_text program.now scope (formula_view formula.now)) }
{
    let mut text = Vec::new(alloc);
    push_formula(&mut text, program, scope, formula)?;
    Ok(text)
}

/// The text of one conjunct of a program, as `print_formula` has it.
pub fn print_conjunct(
    alloc: Global,
    program: &Program,
    scope: Scope,
    conjunct: &Conjunct,
) -> Result<Vec<u8>, AllocError>
    ensures text { IfOk result (λ bytes. bytes.items ≡ conjunct_text program.now scope (conjunct_view conjunct.now)) }
{
    let mut text = Vec::new(alloc);
    push_conjunct(&mut text, program, scope, b"", conjunct)?;
    Ok(text)
}
