//! The tree of a text with numbers in place of names.

ghost use Rattle.std.specs.Prelude.{◌≡◌, [], ◌∷◌, ◌++◌, map, Option, Some, None, IfOk, OnOk};
ghost use Rattle.gc0_base.specs.declared.place.Place.{Place};
ghost use Rattle.gc0_tree.specs.Tree as gc0;
ghost use Rattle.parsed_tree.specs.declared.items.Side.TheVariants.{Requires, Ensures};
ghost use Rattle.gc0_tree.specs.Views.{stmts_view, formula_view, struct_view, predicate_view, function_view, program_view};
ghost use Rattle.parsed_tree.specs.Views as read;
ghost use Rattle.c0_names.specs.Tables.{no_types, result_type, tables_of};
ghost use Rattle.c0_numbers.specs.Statements.{stmts_frame, stmts_tree};
ghost use Rattle.c0_numbers.specs.StatementTexts.{stmts_texts, item_texts, items_texts};
ghost use Rattle.c0_value_numbers.specs.Formulas as formula_of;
ghost use Rattle.c0_numbers.specs.Resolved.{named_shape, shapes_of, field_shapes, struct_tree, structs_tree, params_behind, params_of, predicate_tree, result_shape, function_tree, item_predicates, predicates_tree, item_functions, functions_tree, numbered_by, resolved};

use crate::statements::statements;
use c0_names::{Tables, TypedNames, ValueType, tables_of};
use c0_value_numbers::{Frame, joined, number_in, parts_of, shape_of, side_contracts, small};
use gc0_base::Place;
use gc0_tree::{Formula, Function, Predicate, Program, Shape, Stmt, Struct};
use parsed_tree::{Contract, Head, Item, Param, Parsed, PredicateText, ResultType, Side};
use sqlite_items::Items;
use std::alloc::{AllocError, Global};

// Names with the shapes of their types.
#[tactic(auto, using(crate::proofs::Zips::zip_step, crate::proofs::Zips::zip_gone, crate::proofs::Zips::zip_done))]
fn shapes_of(alloc: Global, names: &TypedNames) -> Result<Items<(Items<u8>, Shape)>, AllocError>
    ensures { IfOk result (λ made. made ≡ shapes_of names.now) }
{
    let mut made = Items::new(alloc);
    let types = names.types.as_slice();
    for (place, typed) in types.iter().enumerate() {
        match names.names.name(place) {
            Some(name) => {
                let name = Items::from_slice(alloc, name)?;
                made.push((name, shape_of(*typed)?))?;
            }
            None => return Ok(made),
        }
    }
    Ok(made)
}

fn field_shapes(
    alloc: Global,
    fields: &Option<TypedNames>,
) -> Result<Items<(Items<u8>, Shape)>, AllocError>
    ensures { IfOk result (λ made. made ≡ field_shapes fields.now) }
{
    match fields {
        Some(fields) => shapes_of(alloc, fields),
        None => Ok(Items::new(alloc)),
    }
}

fn structure(alloc: Global, name: &[u8], fields: &Option<TypedNames>) -> Result<Struct, AllocError>
    ensures { IfOk result (λ s. struct_view s ≡ record { name = name.now; fields = field_shapes fields.now }) }
{
    let name = Items::from_slice(alloc, name)?;
    let fields = field_shapes(alloc, fields)?;
    Ok(Struct { name, fields })
}

// The structs by number.
#[tactic(auto, using(crate::proofs::Zips::zip_step, crate::proofs::Zips::zip_gone, crate::proofs::Zips::zip_done))]
fn structs(alloc: Global, tables: &Tables) -> Result<Items<Struct>, AllocError>
    ensures { IfOk result (λ made. map struct_view made ≡ structs_tree tables.now.structs tables.now.fields) }
{
    let mut made = Items::new(alloc);
    let all = tables.fields.as_slice();
    for (place, fields) in all.iter().enumerate() {
        match tables.structs.name(place) {
            Some(name) => {
                let part = structure(alloc, name, fields)?;
                made.push(part)?;
            }
            None => return Ok(made),
        }
    }
    Ok(made)
}

fn parameters<'a>(
    alloc: Global,
    tables: &Tables,
    params: &'a [Param],
) -> Result<TypedNames<'a>, AllocError>
    ensures { IfOk result (λ made. made ≡ params_of tables.now params.now) }
{
    let mut made = TypedNames::new(alloc);
    for param in params {
        let typed = tables.value_type(&param.typed)?;
        made.push(param.name.name.as_slice(), typed)?;
    }
    Ok(made)
}

fn predicate(
    alloc: Global,
    tables: &Tables,
    predicate: &PredicateText,
) -> Result<Predicate, AllocError>
    ensures { IfOk result (λ p. predicate_view p ≡ predicate_tree tables.now (read.predicate_view predicate.now)) }
{
    let frame = Frame {
        locals: parameters(alloc, tables, predicate.params.as_slice())?,
        result: ValueType::Void,
    };
    let name = Items::from_slice(alloc, predicate.name.name.as_slice())?;
    let params = shapes_of(alloc, &frame.locals)?;
    let body = parts_of(alloc, tables, &frame, &predicate.body)?;
    Ok(Predicate { name, params, body })
}

// Predicates behind others.
fn push_predicates(
    alloc: Global,
    tables: &Tables,
    predicates: &[PredicateText],
    made: &mut Items<Predicate>,
) -> Result<(), AllocError>
    ensures { OnOk result (map predicate_view made.new ≡ map predicate_view made.old ++ map (predicate_tree tables.now) (map read.predicate_view predicates.now)) }
{
    for part in predicates {
        let part = predicate(alloc, tables, part)?;
        made.push(part)?;
    }
    Ok(())
}

// The predicates of an item behind others.
fn item_predicates(
    alloc: Global,
    tables: &Tables,
    item: &Item,
    made: &mut Items<Predicate>,
) -> Result<(), AllocError>
    ensures { OnOk result (map predicate_view made.new ≡ map predicate_view made.old ++ item_predicates tables.now (read.item_view item.now)) }
{
    match item {
        Item::Predicates { predicates, .. } => {
            push_predicates(alloc, tables, predicates.as_slice(), made)
        }
        _ => Ok(()),
    }
}

fn all_predicates(
    alloc: Global,
    tables: &Tables,
    items: &[Item],
) -> Result<Items<Predicate>, AllocError>
    ensures { IfOk result (λ made. map predicate_view made ≡ predicates_tree tables.now (map read.item_view items.now)) }
{
    let mut made = Items::new(alloc);
    for item in items {
        item_predicates(alloc, tables, item, &mut made)?;
    }
    Ok(made)
}

fn result_shape(tables: &Tables, written: &ResultType) -> Result<Option<Shape>, AllocError>
    ensures { IfOk result (λ s. s ≡ result_shape tables.now written.now) }
{
    match written {
        ResultType::Void(_) => Ok(None),
        ResultType::Typed(typed) => Ok(Some(shape_of(tables.value_type(typed)?)?)),
    }
}

// The clauses of one side of a contract, joined.
fn side(
    alloc: Global,
    tables: &Tables,
    frame: &Frame,
    side: Side,
    contracts: &[Contract],
) -> Result<Formula, AllocError>
    ensures { IfOk result (λ f. formula_view f ≡ formula_of.joined tables.now frame.now (formula_of.side_contracts side (map read.contract_view contracts.now))) }
{
    let formulas = side_contracts(alloc, side, contracts)?;
    joined(alloc, tables, frame, formulas.as_slice())
}

// The joined clauses of a contract.
#[derive(Drop)]
struct JoinedSides {
    before: Formula,
    after: Formula,
}

fn sides(
    alloc: Global,
    tables: &Tables,
    frame: &Frame,
    contracts: &[Contract],
) -> Result<JoinedSides, AllocError>
    ensures before { IfOk result (λ s. formula_view s.before ≡ formula_of.joined tables.now frame.now (formula_of.side_contracts Requires (map read.contract_view contracts.now))) }
    ensures after { IfOk result (λ s. formula_view s.after ≡ formula_of.joined tables.now frame.now (formula_of.side_contracts Ensures (map read.contract_view contracts.now))) }
{
    let before = side(alloc, tables, frame, Side::Requires, contracts)?;
    let after = side(alloc, tables, frame, Side::Ensures, contracts)?;
    Ok(JoinedSides { before, after })
}

// The statements of a function, and all its locals.
#[derive(Drop)]
struct FunctionCode {
    locals: Items<(Items<u8>, Shape)>,
    body: Items<Stmt>,
}

fn code<'a>(
    alloc: Global,
    tables: &Tables,
    frame: Frame<'a>,
    texts: &mut Items<Items<u8>>,
    body: &'a [parsed_tree::Stmt],
) -> Result<FunctionCode, AllocError>
    ensures locals { IfOk result (λ c. c.locals ≡ shapes_of (stmts_frame tables.now frame.entry (read.stmts_view body.now)).locals) }
    ensures body { IfOk result (λ c. stmts_view c.body ≡ stmts_tree tables.now frame.entry texts.old (read.stmts_view body.now)) }
    ensures texts { OnOk result (texts.new ≡ stmts_texts texts.old (read.stmts_view body.now)) }
{
    let mut frame = frame;
    let body = statements(alloc, tables, &mut frame, texts, body)?;
    let locals = shapes_of(alloc, &frame.locals)?;
    Ok(FunctionCode { locals, body })
}

// What names stand for at the start of a function.
fn start<'a>(alloc: Global, tables: &Tables, head: &'a Head) -> Result<Frame<'a>, AllocError>
    ensures { IfOk result (λ f. f ≡ record { locals = params_of tables.now head.now.params; result = result_type tables.now head.now.result }) }
{
    let result = tables.result_type(&head.result)?;
    let locals = parameters(alloc, tables, head.params.as_slice())?;
    Ok(Frame { locals, result })
}

fn function(
    alloc: Global,
    tables: &Tables,
    texts: &mut Items<Items<u8>>,
    head: &Head,
    contracts: &[Contract],
    body: &[parsed_tree::Stmt],
    close: Place,
) -> Result<Function, AllocError>
    ensures tree { IfOk result (λ f. function_view f ≡ function_tree tables.now texts.old head.now (map read.contract_view contracts.now) (read.stmts_view body.now) close) }
    ensures texts { OnOk result (texts.new ≡ stmts_texts texts.old (read.stmts_view body.now)) }
{
    let params = small(head.params.len())?;
    let result = result_shape(tables, &head.result)?;
    let name = Items::from_slice(alloc, head.name.name.as_slice())?;
    let frame = start(alloc, tables, head)?;
    let sides = sides(alloc, tables, &frame, contracts)?;
    let code = code(alloc, tables, frame, texts, body)?;
    Ok(Function {
        name,
        place: head.name.place,
        close,
        params,
        locals: code.locals,
        result,
        before: sides.before,
        after: sides.after,
        body: code.body,
    })
}

// The function of an item behind others.
fn item_functions(
    alloc: Global,
    tables: &Tables,
    texts: &mut Items<Items<u8>>,
    item: &Item,
    made: &mut Items<Function>,
) -> Result<(), AllocError>
    ensures tree { OnOk result (map function_view made.new ≡ map function_view made.old ++ item_functions tables.now texts.old (read.item_view item.now)) }
    ensures texts { OnOk result (texts.new ≡ item_texts texts.old (read.item_view item.now)) }
{
    match item {
        Item::Function {
            head,
            contract,
            body,
            close,
        } => {
            let (contract, body) = (contract.as_slice(), body.as_slice());
            let part = function(alloc, tables, texts, head, contract, body, *close)?;
            made.push(part)?;
            Ok(())
        }
        _ => Ok(()),
    }
}

fn all_functions(
    alloc: Global,
    tables: &Tables,
    texts: &mut Items<Items<u8>>,
    items: &[Item],
) -> Result<Items<Function>, AllocError>
    ensures tree { IfOk result (λ made. map function_view made ≡ functions_tree tables.now texts.old (map read.item_view items.now)) }
    ensures texts { OnOk result (texts.new ≡ items_texts texts.old (map read.item_view items.now)) }
{
    let mut made = Items::new(alloc);
    for item in items {
        item_functions(alloc, tables, texts, item, &mut made)?;
    }
    Ok(made)
}

/// The same as `numbered`, by tables that were made: those of the text.
///
/// # Errors
///
/// Where there is not memory enough, or more than 2^32 - 1 of what is numbered.
pub fn numbered_by(alloc: Global, parsed: &Parsed, tables: &Tables) -> Result<Program, AllocError>
    ensures { IfOk result (λ q. program_view q ≡ numbered_by tables.now (read.program_view parsed.now)) }
{
    let items = parsed.items.as_slice();
    let main = small(number_in(&tables.functions.names, b"main".as_slice()))?;
    let structs = structs(alloc, tables)?;
    let predicates = all_predicates(alloc, tables, items)?;
    let mut texts = Items::new(alloc);
    let functions = all_functions(alloc, tables, &mut texts, items)?;
    Ok(Program {
        structs,
        predicates,
        functions,
        main,
        texts,
    })
}

/// The resolved tree of a text that was read: numbers in place of names, and its clauses joined.
/// It is meant for a text that violates no typing rule; in another an unknown name has the number 0.
///
/// The recursion is as deep as the text's expressions and statements. The time and the memory grow
/// with the length of the text.
///
/// # Errors
///
/// Where there is not memory enough, or more than 2^32 - 1 of what is numbered.
pub fn numbered(alloc: Global, parsed: &Parsed) -> Result<Program, AllocError>
    ensures { IfOk result (λ q. program_view q ≡ resolved (read.program_view parsed.now)) }
{
    let tables = tables_of(alloc, parsed)?;
    numbered_by(alloc, parsed, &tables)
}
