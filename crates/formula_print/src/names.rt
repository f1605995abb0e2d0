//! The names that stand for numbers, and the operators of a text.

ghost use Rattle.std.specs.Prelude.{◌≡◌, slice_get};
ghost use Rattle.gc0_tree.specs.Views.{expr_view};
ghost use Rattle.formula_print.specs.Numbered.{name_in, shape_in, locals_of, result_of, function_name, predicate_name, struct_name, struct_fields, field_name, text_at, shape_of, pointed_field, unary_of, operator_of};

use crate::scope::Scope;
use gc0_tree::{Expr, ExprForm, ExprOp, Program, Shape, UnaryOp};
use parsed_tree::{Operator, UnaryOperator};
use sqlite_items::{Items, at};

pub(crate) fn unary_of(op: UnaryOp) -> UnaryOperator
    ensures { result ≡ unary_of op }
{
    match op {
        UnaryOp::Neg => UnaryOperator::Negate,
        UnaryOp::Not => UnaryOperator::Not,
        UnaryOp::Flip => UnaryOperator::Flip,
    }
}

pub(crate) fn operator_of(op: ExprOp) -> Operator
    ensures { result ≡ operator_of op }
{
    match op {
        ExprOp::Add => Operator::Add,
        ExprOp::Sub => Operator::Sub,
        ExprOp::Mul => Operator::Mul,
        ExprOp::Div => Operator::Div,
        ExprOp::Rem => Operator::Rem,
        ExprOp::Shl => Operator::Shl,
        ExprOp::Shr => Operator::Shr,
        ExprOp::And => Operator::And,
        ExprOp::Or => Operator::Or,
        ExprOp::Xor => Operator::Xor,
        ExprOp::Less => Operator::Less,
        ExprOp::LessEq => Operator::LessEq,
        ExprOp::Greater => Operator::Greater,
        ExprOp::GreaterEq => Operator::GreaterEq,
        ExprOp::Equal => Operator::Equal,
        ExprOp::NotEqual => Operator::NotEqual,
    }
}

// The name of this number.
pub(crate) fn name_in<'a>(names: &'a [(Items<u8>, Shape)], number: u32) -> &'a [u8]
    ensures { result.now ≡ name_in (slice_get names.now number) }
{
    match at(names, number as usize) {
        Some(named) => named.0.as_slice(),
        None => &[],
    }
}

pub(crate) fn shape_in(names: &[(Items<u8>, Shape)], number: u32) -> Option<Shape>
    ensures { result ≡ shape_in (slice_get names.now number) }
{
    match at(names, number as usize) {
        Some(named) => Some(named.1),
        None => None,
    }
}

pub(crate) fn locals_of<'a>(program: &'a Program, scope: Scope) -> &'a [(Items<u8>, Shape)]
    ensures { result.now ≡ locals_of program.now scope }
{
    match scope {
        Scope::Function(number) => match at(program.functions.as_slice(), number as usize) {
            Some(function) => function.locals.as_slice(),
            None => &[],
        },
        Scope::Predicate(number) => match at(program.predicates.as_slice(), number as usize) {
            Some(predicate) => predicate.params.as_slice(),
            None => &[],
        },
    }
}

pub(crate) fn result_of(program: &Program, scope: Scope) -> Option<Shape>
    ensures { result ≡ result_of program.now scope }
{
    match scope {
        Scope::Function(number) => match at(program.functions.as_slice(), number as usize) {
            Some(function) => function.result,
            None => None,
        },
        Scope::Predicate(_) => None,
    }
}

pub(crate) fn function_name<'a>(program: &'a Program, number: u32) -> &'a [u8]
    ensures { result.now ≡ function_name (slice_get program.now.functions number) }
{
    match at(program.functions.as_slice(), number as usize) {
        Some(function) => function.name.as_slice(),
        None => &[],
    }
}

pub(crate) fn predicate_name<'a>(program: &'a Program, number: u32) -> &'a [u8]
    ensures { result.now ≡ predicate_name (slice_get program.now.predicates number) }
{
    match at(program.predicates.as_slice(), number as usize) {
        Some(predicate) => predicate.name.as_slice(),
        None => &[],
    }
}

pub(crate) fn struct_name<'a>(program: &'a Program, number: u32) -> &'a [u8]
    ensures { result.now ≡ struct_name (slice_get program.now.structs number) }
{
    match at(program.structs.as_slice(), number as usize) {
        Some(found) => found.name.as_slice(),
        None => &[],
    }
}

pub(crate) fn struct_fields<'a>(program: &'a Program, number: u32) -> &'a [(Items<u8>, Shape)]
    ensures { result.now ≡ struct_fields (slice_get program.now.structs number) }
{
    match at(program.structs.as_slice(), number as usize) {
        Some(found) => found.fields.as_slice(),
        None => &[],
    }
}

pub(crate) fn field_name<'a>(program: &'a Program, of_struct: u32, field: u32) -> &'a [u8]
    ensures { result.now ≡ field_name program.now of_struct field }
{
    name_in(struct_fields(program, of_struct), field)
}

pub(crate) fn text_at<'a>(program: &'a Program, number: u32) -> &'a [u8]
    ensures { result.now ≡ text_at (slice_get program.now.texts number) }
{
    match at(program.texts.as_slice(), number as usize) {
        Some(text) => text.as_slice(),
        None => &[],
    }
}

// What a path of `acc` is.
pub(crate) fn shape_of(program: &Program, scope: Scope, e: &Expr) -> Option<Shape>
    ensures { result ≡ shape_of program.now scope (expr_view e.now) }
{
    match &e.form {
        ExprForm::Number(_) => None,
        ExprForm::Truth(_) => None,
        ExprForm::Null => None,
        ExprForm::Local(number) => shape_in(locals_of(program, scope), *number),
        ExprForm::ResultValue => result_of(program, scope),
        ExprForm::Unary(_, _) => None,
        ExprForm::Binary(_, _, _) => None,
        ExprForm::Both(_, _) => None,
        ExprForm::Either(_, _) => None,
        ExprForm::Choose(_, _, _) => None,
        ExprForm::Read {
            base: _,
            of_struct,
            field,
        } => shape_in(struct_fields(program, *of_struct), *field),
        ExprForm::Call {
            function: _,
            arguments: _,
        } => None,
        ExprForm::Library {
            call: _,
            argument: _,
            text: _,
        } => None,
        ExprForm::Alloc(_) => None,
    }
}

pub(crate) fn pointed_field<'a>(program: &'a Program, shape: Option<Shape>, field: u32) -> &'a [u8]
    ensures { result.now ≡ pointed_field program.now shape field }
{
    match shape {
        Some(Shape::Pointer(of_struct)) => field_name(program, of_struct, field),
        Some(Shape::Int) => &[],
        Some(Shape::Bool) => &[],
        Some(Shape::Null) => &[],
        None => &[],
    }
}
