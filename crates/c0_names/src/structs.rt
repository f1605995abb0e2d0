//! The structs of a text in the order in which their names first stand.

#![tactic(auto, using(crate::specs::Names::names_both))]

ghost use Rattle.std.specs.Prelude.{◌≡◌, [], fold, OnOk, IfOk, map};
ghost use Rattle.std.specs.Option.{option_map};
ghost use Rattle.parsed_tree.specs.Views.{expr_view, exprs_view, value_view, simple_view, stmt_view, stmts_view, stmts_in, predicate_view, item_view, program_view};
ghost use Rattle.c0_names.specs.Names.{names_with};
ghost use Rattle.c0_names.specs.Tables.{base_structs, type_structs, expr_structs, exprs_structs, optional_structs, value_structs, simple_structs, part_structs, stmt_structs, stmts_structs, fields_structs, params_structs, result_structs, head_structs, predicates_structs, item_structs, items_structs, struct_names};

use crate::index::Index;
use gc0_base::Place;
use parsed_tree::{
    Base, Expr, Field, Head, Item, Param, Parsed, PredicateText, ResultType, Simple, Stmt, TypeName,
};
use sqlite_items::Boxed;
use std::alloc::{AllocError, Global};

fn in_type<'a>(names: &mut Index<'a>, typed: &'a TypeName) -> Result<(), AllocError>
    ensures { OnOk result (names.new ≡ fold names_with names.old (type_structs typed.now)) }
{
    match &typed.base {
        Base::Int => Ok(()),
        Base::Bool => Ok(()),
        Base::Struct(name) => names.add(name.name.as_slice()),
        Base::Alias(_) => Ok(()),
    }
}

#[cycle(in_expression)]
fn in_expression<'a>(names: &mut Index<'a>, e: &'a Expr) -> Result<(), AllocError>
    ensures { OnOk result (names.new ≡ fold names_with names.old (expr_structs (expr_view e.now))) }
{
    match e {
        Expr::Number(_, _) => Ok(()),
        Expr::Truth(_, _) => Ok(()),
        Expr::Null(_) => Ok(()),
        Expr::Local(_, _) => Ok(()),
        Expr::Outcome(_) => Ok(()),
        Expr::Unary(_, _, x) => in_expression(names, x.get()),
        Expr::Binary(_, _, x, y) => {
            in_expression(names, x.get())?;
            in_expression(names, y.get())
        }
        Expr::Choose(_, x, y, z) => {
            in_expression(names, x.get())?;
            in_expression(names, y.get())?;
            in_expression(names, z.get())
        }
        Expr::Arrow(_, x, _) => in_expression(names, x.get()),
        Expr::Call(_, _, arguments) => in_expressions(names, arguments.as_slice()),
        Expr::CallText(_, _, _) => Ok(()),
        Expr::Alloc(_, typed) => in_type(names, typed),
        Expr::Acc(_, x, _, _) => in_expression(names, x.get()),
    }
}

#[cycle(in_expression)]
fn in_expressions<'a>(names: &mut Index<'a>, parts: &'a [Expr]) -> Result<(), AllocError>
    ensures { OnOk result (names.new ≡ fold names_with names.old (exprs_structs (exprs_view parts.now))) }
{
    for e in parts {
        in_expression(names, e)?;
    }
    Ok(())
}

fn in_optional<'a>(names: &mut Index<'a>, e: &'a Option<Expr>) -> Result<(), AllocError>
    ensures { OnOk result (names.new ≡ fold names_with names.old (optional_structs (option_map expr_view e.now))) }
{
    match e {
        Some(e) => in_expression(names, e),
        None => Ok(()),
    }
}

fn in_value<'a>(names: &mut Index<'a>, value: &'a Option<(Place, Expr)>) -> Result<(), AllocError>
    ensures { OnOk result (names.new ≡ fold names_with names.old (value_structs (option_map value_view value.now))) }
{
    match value {
        Some((_, e)) => in_expression(names, e),
        None => Ok(()),
    }
}

fn in_simple<'a>(names: &mut Index<'a>, simple: &'a Simple) -> Result<(), AllocError>
    ensures { OnOk result (names.new ≡ fold names_with names.old (simple_structs (simple_view simple.now))) }
{
    match simple {
        Simple::Declare {
            typed,
            name: _,
            value,
        } => {
            in_type(names, typed)?;
            in_value(names, value)
        }
        Simple::Assign {
            target,
            place: _,
            operator: _,
            value,
        } => {
            in_expression(names, target)?;
            in_expression(names, value)
        }
        Simple::Step {
            target,
            place: _,
            operator: _,
        } => in_expression(names, target),
        Simple::Plain(e) => in_expression(names, e),
    }
}

fn in_part<'a>(names: &mut Index<'a>, part: &'a Option<Boxed<Simple>>) -> Result<(), AllocError>
    ensures { OnOk result (names.new ≡ fold names_with names.old (part_structs (option_map simple_view part.now))) }
{
    match part {
        Some(simple) => in_simple(names, simple.get()),
        None => Ok(()),
    }
}

#[cycle(in_statement)]
fn in_statement<'a>(names: &mut Index<'a>, statement: &'a Stmt) -> Result<(), AllocError>
    ensures { OnOk result (names.new ≡ fold names_with names.old (stmt_structs (stmt_view statement.now))) }
{
    match statement {
        Stmt::Simple(simple) => in_simple(names, simple),
        Stmt::Block { body, .. } => in_statements(names, body.as_slice()),
        Stmt::If { test, yes, no, .. } => {
            in_expression(names, test)?;
            in_statement(names, yes.get())?;
            match no {
                Some(no) => in_statement(names, no.get()),
                None => Ok(()),
            }
        }
        Stmt::While { test, body, .. } => {
            in_expression(names, test)?;
            in_statement(names, body.get())
        }
        Stmt::For {
            first,
            test,
            last,
            body,
            ..
        } => {
            in_part(names, first)?;
            in_expression(names, test)?;
            in_part(names, last)?;
            in_statement(names, body.get())
        }
        Stmt::Return { value, .. } => in_optional(names, value),
        Stmt::Assert { test, .. } => in_expression(names, test),
        Stmt::Error { .. } => Ok(()),
        Stmt::Notes { .. } => Ok(()),
    }
}

#[cycle(in_statement)]
fn in_statements<'a>(names: &mut Index<'a>, statements: &'a [Stmt]) -> Result<(), AllocError>
    ensures { OnOk result (names.new ≡ fold names_with names.old (stmts_structs (stmts_view statements.now))) }
{
    for statement in statements {
        in_statement(names, statement)?;
    }
    Ok(())
}

fn in_fields<'a>(names: &mut Index<'a>, fields: &'a [Field]) -> Result<(), AllocError>
    ensures { OnOk result (names.new ≡ fold names_with names.old (fields_structs fields.now)) }
{
    for field in fields {
        in_type(names, &field.typed)?;
    }
    Ok(())
}

fn in_params<'a>(names: &mut Index<'a>, params: &'a [Param]) -> Result<(), AllocError>
    ensures { OnOk result (names.new ≡ fold names_with names.old (params_structs params.now)) }
{
    for param in params {
        in_type(names, &param.typed)?;
    }
    Ok(())
}

fn in_head<'a>(names: &mut Index<'a>, head: &'a Head) -> Result<(), AllocError>
    ensures { OnOk result (names.new ≡ fold names_with names.old (head_structs head.now)) }
{
    match &head.result {
        ResultType::Void(_) => {}
        ResultType::Typed(typed) => in_type(names, typed)?,
    }
    in_params(names, head.params.as_slice())
}

fn in_predicates<'a>(
    names: &mut Index<'a>,
    predicates: &'a [PredicateText],
) -> Result<(), AllocError>
    ensures { OnOk result (names.new ≡ fold names_with names.old (predicates_structs (map predicate_view predicates.now))) }
{
    for predicate in predicates {
        in_params(names, predicate.params.as_slice())?;
    }
    Ok(())
}

fn in_item<'a>(names: &mut Index<'a>, item: &'a Item) -> Result<(), AllocError>
    ensures { OnOk result (names.new ≡ fold names_with names.old (item_structs (item_view item.now))) }
{
    match item {
        Item::StructName { name, .. } => names.add(name.name.as_slice()),
        Item::Struct { name, fields, .. } => {
            names.add(name.name.as_slice())?;
            in_fields(names, fields.as_slice())
        }
        Item::Typedef { typed, .. } => in_type(names, typed),
        Item::Prototype { head, .. } => in_head(names, head),
        Item::Function { head, body, .. } => {
            in_head(names, head)?;
            in_statements(names, body.as_slice())
        }
        Item::Predicates { predicates, .. } => in_predicates(names, predicates.as_slice()),
    }
}

/// The structs of a text by their numbers: each name that stands after `struct`, once, in the
/// order in which they first stand there.
pub fn struct_names<'a>(alloc: Global, parsed: &'a Parsed) -> Result<Index<'a>, AllocError>
    ensures { IfOk result (λ names. names ≡ struct_names (program_view parsed.now)) }
{
    let mut names = Index::new(alloc);
    for item in parsed.items.as_slice() {
        in_item(&mut names, item)?;
    }
    Ok(names)
}
