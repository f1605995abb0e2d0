//! Expressions with numbers in place of names.

#![tactic(auto, using(c0_names::specs::Counted::count_view))]

ghost use Rattle.std.specs.Prelude.{◌≡◌, [], ◌∷◌, ◌++◌, ◌&&◌, length, slice_get, map, true, Option, Some, None, IfOk, OnOk, if◌then◌else◌};
ghost use Rattle.std.specs.Option.{option_map, unwrap_or};
ghost use Rattle.gc0_base.specs.declared.place.Place.{Place};
ghost use Rattle.gc0_tree.specs.Tree as gc0;
ghost use Rattle.gc0_tree.specs.Views.{expr_view, exprs_view, form_view, trees_in};
ghost use Rattle.gc0_tree.specs.Calls.{library_named};
ghost use Rattle.parsed_tree.specs.Views as read;
ghost use Rattle.c0_names.specs.Tables.{type_in, value_type};
ghost use Rattle.c0_names.specs.Types.{int, bool, struct_behind, prints_text, takes_to, callee};
ghost use Rattle.c0_names.specs.Typing.{unary_typed, binary_typed, choice_typed, arrow_typed, allocated, argument_fits, params_of, called, count_of};
ghost use Rattle.c0_value_numbers.specs.Values.{number_in, accessed, type_in_frame, arguments_fit_in_frame};
ghost use Rattle.c0_value_numbers.specs.Texts.{expr_texts, exprs_texts};
ghost use Rattle.c0_value_numbers.specs.Expressions.{unary_of, joint_of, joint_tree, binary_tree, read_tree, first_tree, call_tree, base_struct, made_struct, expr_tree, exprs_tree};

use crate::frame::Frame;
use crate::values::{access, number_in, small};
use c0_names::{
    BOOL, BaseType, INT, Tables, ValueType, allocated, argument_fits, arrow_typed, binary_typed,
    called, callee, choice_typed, permission_typed, text_called, unary_typed,
};
use gc0_base::{Place, Word};
use gc0_tree::{Expr, ExprForm, ExprOp, LibraryCall, UnaryOp};
use parsed_tree::{Operator, TypeName, UnaryOperator};
use sqlite_items::{Boxed, Items};
use std::alloc::{AllocError, Global};

/// An expression with its type, where it has one.
#[derive(Drop)]
pub struct Typed {
    pub tree: Boxed<Expr>,
    pub typed: Option<ValueType>,
}

/// ArgumentTrees, and whether they have the types of the parameters.
#[derive(Drop)]
pub struct ArgumentTrees {
    pub trees: Items<Expr>,
    pub fit: bool,
}

/// How the tree joins two operands: by an operator that takes both, or by one that may leave the
/// right one.
#[derive(Clone, Copy, Debug)]
pub enum Joint {
    Of(ExprOp),
    Both,
    Either,
}

// An expression of this form at this place.
fn placed(place: Place, form: ExprForm) -> Expr
    ensures { expr_view result ≡ form_view form place }
{
    Expr { place, form }
}

fn with_type(alloc: Global, tree: Expr, typed: Option<ValueType>) -> Result<Typed, AllocError>
    ensures tree { IfOk result (λ r. expr_view r.tree ≡ expr_view tree) }
    ensures typed { IfOk result (λ r. r.typed ≡ typed) }
{
    let tree = Boxed::new(alloc, tree)?;
    Ok(Typed { tree, typed })
}

/// A literal number.
pub fn number(place: Place, word: Word) -> Expr
    ensures { expr_view result ≡ gc0.number_at place word.0 }
{
    placed(place, ExprForm::Number(word))
}

/// `true` or `false`.
pub fn truth(place: Place, truth: bool) -> Expr
    ensures { expr_view result ≡ gc0.truth_at place truth }
{
    placed(place, ExprForm::Truth(truth))
}

fn null(place: Place) -> Expr
    ensures { expr_view result ≡ gc0.null_at place }
{
    placed(place, ExprForm::Null)
}

fn outcome(place: Place) -> Expr
    ensures { expr_view result ≡ gc0.result_at place }
{
    placed(place, ExprForm::ResultValue)
}

fn local(alloc: Global, frame: &Frame, place: Place, name: &[u8]) -> Result<Typed, AllocError>
    ensures tree { IfOk result (λ r. expr_view r.tree ≡ gc0.local_at place (number_in frame.now.locals.names name.now)) }
    ensures typed { IfOk result (λ r. r.typed ≡ type_in frame.now.locals name.now) }
{
    let number = small(number_in(&frame.locals.names, name))?;
    let holds = frame.locals.get(name);
    with_type(alloc, placed(place, ExprForm::Local(number)), holds)
}

fn unary_of(operator: UnaryOperator) -> UnaryOp
    ensures { result ≡ unary_of operator }
{
    match operator {
        UnaryOperator::Negate => UnaryOp::Neg,
        UnaryOperator::Not => UnaryOp::Not,
        UnaryOperator::Flip => UnaryOp::Flip,
    }
}

fn unary(
    alloc: Global,
    place: Place,
    operator: UnaryOperator,
    x: Typed,
) -> Result<Typed, AllocError>
    ensures tree { IfOk result (λ r. expr_view r.tree ≡ gc0.unary_at place (unary_of operator) (expr_view x.tree)) }
    ensures typed { IfOk result (λ r. r.typed ≡ unary_typed operator x.typed) }
{
    let gives = unary_typed(operator, x.typed);
    with_type(
        alloc,
        placed(place, ExprForm::Unary(unary_of(operator), x.tree)),
        gives,
    )
}

fn joint_of(operator: Operator) -> Joint
    ensures { result ≡ joint_of operator }
{
    match operator {
        Operator::Mul => Joint::Of(ExprOp::Mul),
        Operator::Div => Joint::Of(ExprOp::Div),
        Operator::Rem => Joint::Of(ExprOp::Rem),
        Operator::Add => Joint::Of(ExprOp::Add),
        Operator::Sub => Joint::Of(ExprOp::Sub),
        Operator::Shl => Joint::Of(ExprOp::Shl),
        Operator::Shr => Joint::Of(ExprOp::Shr),
        Operator::Less => Joint::Of(ExprOp::Less),
        Operator::LessEq => Joint::Of(ExprOp::LessEq),
        Operator::Greater => Joint::Of(ExprOp::Greater),
        Operator::GreaterEq => Joint::Of(ExprOp::GreaterEq),
        Operator::Equal => Joint::Of(ExprOp::Equal),
        Operator::NotEqual => Joint::Of(ExprOp::NotEqual),
        Operator::And => Joint::Of(ExprOp::And),
        Operator::Xor => Joint::Of(ExprOp::Xor),
        Operator::Or => Joint::Of(ExprOp::Or),
        Operator::Both => Joint::Both,
        Operator::Either => Joint::Either,
    }
}

fn joined(place: Place, joint: Joint, x: Boxed<Expr>, y: Boxed<Expr>) -> Expr
    ensures { expr_view result ≡ joint_tree place joint (expr_view x) (expr_view y) }
{
    match joint {
        Joint::Of(operator) => placed(place, ExprForm::Binary(operator, x, y)),
        Joint::Both => placed(place, ExprForm::Both(x, y)),
        Joint::Either => placed(place, ExprForm::Either(x, y)),
    }
}

fn binary(
    alloc: Global,
    place: Place,
    operator: Operator,
    x: Typed,
    y: Typed,
) -> Result<Typed, AllocError>
    ensures tree { IfOk result (λ r. expr_view r.tree ≡ binary_tree place operator (expr_view x.tree) (expr_view y.tree)) }
    ensures typed { IfOk result (λ r. r.typed ≡ binary_typed operator x.typed y.typed) }
{
    let gives = binary_typed(operator, x.typed, y.typed);
    with_type(
        alloc,
        joined(place, joint_of(operator), x.tree, y.tree),
        gives,
    )
}

fn choose(
    alloc: Global,
    place: Place,
    test: Typed,
    yes: Typed,
    no: Typed,
) -> Result<Typed, AllocError>
    ensures tree { IfOk result (λ r. expr_view r.tree ≡ gc0.choose_at place (expr_view test.tree) (expr_view yes.tree) (expr_view no.tree)) }
    ensures typed { IfOk result (λ r. r.typed ≡ choice_typed test.typed yes.typed no.typed) }
{
    let gives = choice_typed(test.typed, yes.typed, no.typed);
    with_type(
        alloc,
        placed(place, ExprForm::Choose(test.tree, yes.tree, no.tree)),
        gives,
    )
}

// A field behind a base.
fn field(place: Place, base: Boxed<Expr>, of_struct: u32, field: u32) -> Expr
    ensures { expr_view result ≡ gc0.read_at place (expr_view base) of_struct field }
{
    let form = ExprForm::Read {
        base,
        of_struct,
        field,
    };
    placed(place, form)
}

fn arrow(
    alloc: Global,
    tables: &Tables,
    place: Place,
    base: Typed,
    name: &[u8],
) -> Result<Typed, AllocError>
    ensures tree { IfOk result (λ r. expr_view r.tree ≡ read_tree place (expr_view base.tree) (accessed tables.now base.typed name.now)) }
    ensures typed { IfOk result (λ r. r.typed ≡ arrow_typed tables.now base.typed name.now) }
{
    let (of_struct, number) = access(tables, base.typed, name)?;
    let gives = arrow_typed(tables, base.typed, name);
    with_type(alloc, field(place, base.tree, of_struct, number), gives)
}

// At most the first of these expressions.
fn first_of(alloc: Global, arguments: Items<Expr>) -> Result<Option<Boxed<Expr>>, AllocError>
    ensures { IfOk result (λ first. trees_in (option_map expr_view first) ≡ first_tree (exprs_view arguments)) }
{
    let mut arguments = arguments;
    if 0 < arguments.len() {
        let first = Boxed::new(alloc, arguments.remove(0))?;
        return Ok(Some(first));
    }
    Ok(None)
}

fn library(
    place: Place,
    call: LibraryCall,
    argument: Option<Boxed<Expr>>,
    text: Option<u32>,
) -> Expr
    ensures { expr_view result ≡ gc0.library_at place call (trees_in (option_map expr_view argument)) text }
{
    let form = ExprForm::Library {
        call,
        argument,
        text,
    };
    placed(place, form)
}

fn function_call(place: Place, function: u32, arguments: Items<Expr>) -> Expr
    ensures { expr_view result ≡ gc0.call_at place function (exprs_view arguments) }
{
    let form = ExprForm::Call {
        function,
        arguments,
    };
    placed(place, form)
}

fn call_expression(
    alloc: Global,
    tables: &Tables,
    place: Place,
    name: &[u8],
    arguments: Items<Expr>,
) -> Result<Expr, AllocError>
    ensures { IfOk result (λ e. expr_view e ≡ call_tree tables.now place name.now (library_named name.now) (exprs_view arguments)) }
{
    match LibraryCall::named(name) {
        Some(call) => {
            let argument = first_of(alloc, arguments)?;
            Ok(library(place, call, argument, None))
        }
        None => {
            let function = small(number_in(&tables.functions.names, name))?;
            Ok(function_call(place, function, arguments))
        }
    }
}

// A call with a text, which is put behind the others.
fn text_call(
    alloc: Global,
    texts: &mut Items<Items<u8>>,
    place: Place,
    name: &[u8],
    text: &[u8],
) -> Result<Typed, AllocError>
    ensures tree { IfOk result (λ r. expr_view r.tree ≡ gc0.library_at place (unwrap_or (library_named name.now) LibraryCall.Print) gc0.no_trees (Some (length texts.old))) }
    ensures typed { IfOk result (λ r. r.typed ≡ (if prints_text name.now then Some ValueType.Void else None)) }
    ensures texts { OnOk result (texts.new ≡ texts.old ++ text.now ∷ []) }
{
    let number = small(texts.len())?;
    texts.push(Items::from_slice(alloc, text)?)?;
    let call = LibraryCall::named(name).unwrap_or(LibraryCall::Print);
    with_type(
        alloc,
        library(place, call, None, Some(number)),
        text_called(name),
    )
}

fn made_struct(typed: ValueType) -> usize
    ensures { result ≡ made_struct typed }
{
    match typed {
        ValueType::Written(BaseType::Int, _) => 0,
        ValueType::Written(BaseType::Bool, _) => 0,
        ValueType::Written(BaseType::Struct(k), _) => k,
        ValueType::Null => 0,
        ValueType::Void => 0,
        ValueType::Text => 0,
    }
}

// `alloc` of a type.
fn allocation(
    alloc: Global,
    tables: &Tables,
    place: Place,
    name: &TypeName,
) -> Result<Typed, AllocError>
    ensures tree { IfOk result (λ r. expr_view r.tree ≡ gc0.alloc_at place (made_struct (value_type tables.now name.now))) }
    ensures typed { IfOk result (λ r. r.typed ≡ allocated tables.now (struct_behind 0 (value_type tables.now name.now))) }
{
    let base = tables.value_type(name)?;
    let of_struct = small(made_struct(base))?;
    let gives = allocated(tables, base.struct_behind(0));
    with_type(alloc, placed(place, ExprForm::Alloc(of_struct)), gives)
}

// Whether the arguments before the one of this number fit, and it too.
fn fit_behind(fit: bool, params: &[ValueType], number: usize, given: Option<ValueType>) -> bool
    ensures { result ≡ (fit && argument_fits (slice_get params.now number) given) }
{
    fit && argument_fits(params.get(number).copied(), given)
}

/// An expression of the code with numbers in place of names. The texts of its string literals
/// are put behind the others. One that stands in a formula has none.
#[cycle(expression)]
pub fn expression(
    alloc: Global,
    tables: &Tables,
    frame: &Frame,
    texts: &mut Items<Items<u8>>,
    e: &parsed_tree::Expr,
) -> Result<Typed, AllocError>
    ensures tree { IfOk result (λ r. expr_view r.tree ≡ expr_tree tables.now frame.now texts.old (read.expr_view e.now)) }
    ensures typed { IfOk result (λ r. r.typed ≡ type_in_frame tables.now frame.now (read.expr_view e.now)) }
    ensures texts { OnOk result (texts.new ≡ expr_texts texts.old (read.expr_view e.now)) }
{
    match e {
        parsed_tree::Expr::Number(spot, word) => {
            with_type(alloc, number(spot.place, *word), Some(INT))
        }
        parsed_tree::Expr::Truth(spot, value) => {
            with_type(alloc, truth(spot.place, *value), Some(BOOL))
        }
        parsed_tree::Expr::Null(spot) => with_type(alloc, null(spot.place), Some(ValueType::Null)),
        parsed_tree::Expr::Local(spot, name) => local(alloc, frame, spot.place, name.as_slice()),
        parsed_tree::Expr::Outcome(spot) => {
            with_type(alloc, outcome(spot.place), Some(frame.result))
        }
        parsed_tree::Expr::Unary(spot, operator, x) => {
            let x = expression(alloc, tables, frame, texts, x.get())?;
            unary(alloc, spot.place, *operator, x)
        }
        parsed_tree::Expr::Binary(spot, operator, x, y) => {
            let x = expression(alloc, tables, frame, texts, x.get())?;
            let y = y.get();
            right_operand(alloc, tables, frame, texts, spot.place, *operator, x, y)
        }
        parsed_tree::Expr::Choose(spot, test, yes, no) => {
            let test = expression(alloc, tables, frame, texts, test.get())?;
            let yes = expression(alloc, tables, frame, texts, yes.get())?;
            let no = no.get();
            last_branch(alloc, tables, frame, texts, spot.place, test, yes, no)
        }
        parsed_tree::Expr::Arrow(spot, base, name) => {
            let base = expression(alloc, tables, frame, texts, base.get())?;
            arrow(alloc, tables, spot.place, base, name.name.as_slice())
        }
        parsed_tree::Expr::Call(spot, name, given) => {
            let name = name.as_slice();
            let given = given.as_slice();
            call(alloc, tables, frame, texts, spot.place, name, given)
        }
        parsed_tree::Expr::CallText(spot, name, text) => {
            let text = text.bytes.as_slice();
            text_call(alloc, texts, spot.place, name.as_slice(), text)
        }
        parsed_tree::Expr::Alloc(spot, name) => allocation(alloc, tables, spot.place, name),
        parsed_tree::Expr::Acc(spot, base, _, name) => {
            let name = name.name.as_slice();
            permission(alloc, tables, frame, spot.place, base.get(), name)
        }
    }
}

// An operator at this place behind its left operand and the right one.
#[cycle(expression)]
fn right_operand(
    alloc: Global,
    tables: &Tables,
    frame: &Frame,
    texts: &mut Items<Items<u8>>,
    place: Place,
    operator: Operator,
    x: Typed,
    y: &parsed_tree::Expr,
) -> Result<Typed, AllocError>
    ensures tree { IfOk result (λ r. expr_view r.tree ≡ binary_tree place operator (expr_view x.tree) (expr_tree tables.now frame.now texts.old (read.expr_view y.now))) }
    ensures typed { IfOk result (λ r. r.typed ≡ binary_typed operator x.typed (type_in_frame tables.now frame.now (read.expr_view y.now))) }
    ensures texts { OnOk result (texts.new ≡ expr_texts texts.old (read.expr_view y.now)) }
{
    let y = expression(alloc, tables, frame, texts, y)?;
    binary(alloc, place, operator, x, y)
}

// A `?` at this place behind its condition and first branch, and the other one.
#[cycle(expression)]
fn last_branch(
    alloc: Global,
    tables: &Tables,
    frame: &Frame,
    texts: &mut Items<Items<u8>>,
    place: Place,
    test: Typed,
    yes: Typed,
    no: &parsed_tree::Expr,
) -> Result<Typed, AllocError>
    ensures tree { IfOk result (λ r. expr_view r.tree ≡ gc0.choose_at place (expr_view test.tree) (expr_view yes.tree) (expr_tree tables.now frame.now texts.old (read.expr_view no.now))) }
    ensures typed { IfOk result (λ r. r.typed ≡ choice_typed test.typed yes.typed (type_in_frame tables.now frame.now (read.expr_view no.now))) }
    ensures texts { OnOk result (texts.new ≡ expr_texts texts.old (read.expr_view no.now)) }
{
    let no = expression(alloc, tables, frame, texts, no)?;
    choose(alloc, place, test, yes, no)
}

// An `acc`, of which only the type is left: none stands in a value.
#[cycle(expression)]
fn permission(
    alloc: Global,
    tables: &Tables,
    frame: &Frame,
    place: Place,
    base: &parsed_tree::Expr,
    name: &[u8],
) -> Result<Typed, AllocError>
    ensures tree { IfOk result (λ r. expr_view r.tree ≡ gc0.truth_at place true) }
    ensures typed { IfOk result (λ r. r.typed ≡ option_map (λ v. bool) (arrow_typed tables.now (type_in_frame tables.now frame.now (read.expr_view base.now)) name.now)) }
{
    let mut texts = Items::new(alloc);
    let base = expression(alloc, tables, frame, &mut texts, base)?.typed;
    let gives = permission_typed(arrow_typed(tables, base, name));
    with_type(alloc, truth(place, true), gives)
}

// A call of a library call or of a function.
#[cycle(expression)]
fn call(
    alloc: Global,
    tables: &Tables,
    frame: &Frame,
    texts: &mut Items<Items<u8>>,
    place: Place,
    name: &[u8],
    given: &[parsed_tree::Expr],
) -> Result<Typed, AllocError>
    ensures tree { IfOk result (λ r. expr_view r.tree ≡ call_tree tables.now place name.now (library_named name.now) (exprs_tree tables.now frame.now texts.old (read.exprs_view given.now))) }
    ensures typed { IfOk result (λ r. r.typed ≡ called (callee tables.now.functions name.now) (arguments_fit_in_frame tables.now frame.now (params_of (callee tables.now.functions name.now)) 0 (read.exprs_view given.now)) (count_of (read.exprs_view given.now))) }
    ensures texts { OnOk result (texts.new ≡ exprs_texts texts.old (read.exprs_view given.now)) }
{
    let (params, result) = callee(tables, name);
    let made = arguments(alloc, tables, frame, texts, params, given)?;
    let gives = called(params, result, made.fit, given.len());
    let tree = call_expression(alloc, tables, place, name, made.trees)?;
    with_type(alloc, tree, gives)
}

/// Expressions from left to right, as `expression` has each, and whether they have the types of
/// these parameters.
#[cycle(expression)]
pub fn arguments(
    alloc: Global,
    tables: &Tables,
    frame: &Frame,
    texts: &mut Items<Items<u8>>,
    params: &[ValueType],
    es: &[parsed_tree::Expr],
) -> Result<ArgumentTrees, AllocError>
    ensures tree { IfOk result (λ made. exprs_view made.trees ≡ exprs_tree tables.now frame.now texts.old (read.exprs_view es.now)) }
    ensures fit { IfOk result (λ made. made.fit ≡ arguments_fit_in_frame tables.now frame.now params.now 0 (read.exprs_view es.now)) }
    ensures texts { OnOk result (texts.new ≡ exprs_texts texts.old (read.exprs_view es.now)) }
{
    let mut made = Items::new(alloc);
    let mut fit = true;
    let mut number = 0;
    for e in es {
        let e = expression(alloc, tables, frame, texts, e)?;
        fit = fit_behind(fit, params, number, e.typed);
        number += 1;
        made.push(e.tree.into_inner())?;
    }
    Ok(ArgumentTrees { trees: made, fit })
}
