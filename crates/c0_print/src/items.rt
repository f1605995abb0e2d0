//! Items and whole texts.

ghost use Rattle.std.specs.Prelude.{◌≡◌, ◌++◌, map, OnOk, IfOk};
ghost use Rattle.c0_lex.specs.Words.{keyword_bytes};
ghost use Rattle.c0_grammar.specs.Texts.{side_word};
ghost use Rattle.parsed_tree.specs.Views.{expr_view, clause_view, contract_view, predicate_view, item_view, stmts_view, program_view};
ghost use Rattle.c0_layout.specs.Lists.{all_text, spaced_text, joined_text};
ghost use Rattle.c0_layout.specs.Layout.{annotation_text, clause_text, contract_text, param_text, next_text, params_text, result_text, signature_text, head_text, predicate_text, field_text, prototype_text, struct_name_text, struct_text, typedef_text, function_text, item_text, use_text};
ghost use Rattle.c0_print.specs.Laws.{AreReadBack};
ghost use Rattle.c0_print.specs.Printing.{type_of, clause_of, contract_of, param_of, next_of, params_of, result_of, head_of, predicate_of, field_of, item_of, use_of, lines_of, printed};

use crate::expressions::push_expr;
use crate::lexing::reads_back;
use crate::statements::{push_formula, push_stmts};
use crate::types::{push_type, push_typed};
use c0_layout::push;
use parsed_tree::{
    Clause, Contract, Field, Head, Item, Library, Named, Param, Parsed, PredicateText, ResultType,
    Side, Stmt, TypeName,
};
use std::alloc::{AllocError, Global};

fn side_bytes(side: Side) -> &'static [u8]
    ensures { result.now ≡ keyword_bytes (side_word side) }
{
    match side {
        Side::Requires => b"requires",
        Side::Ensures => b"ensures",
    }
}

fn push_clause(text: &mut Vec<u8>, clause: &Clause) -> Result<(), AllocError>
    ensures { OnOk result (text.new.items ≡ text.old.items ++ clause_text (clause_of (clause_view clause.now))) }
{
    push(text, side_bytes(clause.side))?;
    push(text, b" ")?;
    push_formula(text, &clause.formula)?;
    push(text, b";")
}

fn push_more_clauses(text: &mut Vec<u8>, clauses: &[Clause]) -> Result<(), AllocError>
    ensures { OnOk result (text.new.items ≡ text.old.items ++ spaced_text clause_text (map clause_of (map clause_view clauses.now))) }
{
    for clause in clauses {
        push(text, b" ")?;
        push_clause(text, clause)?;
    }
    Ok(())
}

fn push_joined_clauses(text: &mut Vec<u8>, clauses: &[Clause]) -> Result<(), AllocError>
    ensures { OnOk result (text.new.items ≡ text.old.items ++ joined_text clause_text (map clause_of (map clause_view clauses.now))) }
{
    match clauses {
        [] => Ok(()),
        [first, rest @ ..] => {
            push_clause(text, first)?;
            push_more_clauses(text, rest)
        }
    }
}

fn push_contract(text: &mut Vec<u8>, contract: &Contract) -> Result<(), AllocError>
    ensures { OnOk result (text.new.items ≡ text.old.items ++ contract_text (contract_of (contract_view contract.now))) }
{
    push(text, b"//@")?;
    push_joined_clauses(text, contract.clauses.as_slice())?;
    push(text, b"\n")
}

fn push_contracts(text: &mut Vec<u8>, contracts: &[Contract]) -> Result<(), AllocError>
    ensures { OnOk result (text.new.items ≡ text.old.items ++ all_text contract_text (map contract_of (map contract_view contracts.now))) }
{
    for contract in contracts {
        push_contract(text, contract)?;
    }
    Ok(())
}

fn push_param(text: &mut Vec<u8>, param: &Param) -> Result<(), AllocError>
    ensures { OnOk result (text.new.items ≡ text.old.items ++ param_text (param_of param.now)) }
{
    push_typed(text, &param.typed, param.name.name.as_slice())
}

fn push_more_params(text: &mut Vec<u8>, params: &[Param]) -> Result<(), AllocError>
    ensures { OnOk result (text.new.items ≡ text.old.items ++ all_text next_text (map next_of params.now)) }
{
    for param in params {
        push(text, b", ")?;
        push_param(text, param)?;
    }
    Ok(())
}

// Parameters, joined by `, `.
fn push_params(text: &mut Vec<u8>, params: &[Param]) -> Result<(), AllocError>
    ensures { OnOk result (text.new.items ≡ text.old.items ++ params_text (params_of params.now)) }
{
    match params {
        [] => Ok(()),
        [first, rest @ ..] => {
            push_param(text, first)?;
            push_more_params(text, rest)
        }
    }
}

// A name with parameters.
fn push_signature(text: &mut Vec<u8>, name: &[u8], params: &[Param]) -> Result<(), AllocError>
    ensures { OnOk result (text.new.items ≡ text.old.items ++ signature_text name.now (params_of params.now)) }
{
    push(text, name)?;
    push(text, b"(")?;
    push_params(text, params)?;
    push(text, b")")
}

fn push_result(text: &mut Vec<u8>, gives: &ResultType) -> Result<(), AllocError>
    ensures { OnOk result (text.new.items ≡ text.old.items ++ result_text (result_of gives.now)) }
{
    match gives {
        ResultType::Void(_) => push(text, b"void"),
        ResultType::Typed(typed) => push_type(text, typed),
    }
}

fn push_head(text: &mut Vec<u8>, head: &Head) -> Result<(), AllocError>
    ensures { OnOk result (text.new.items ≡ text.old.items ++ head_text (head_of head.now)) }
{
    push_result(text, &head.result)?;
    push(text, b" ")?;
    push_signature(text, head.name.name.as_slice(), head.params.as_slice())
}

fn push_prototype(text: &mut Vec<u8>, head: &Head, contracts: &[Contract]) -> Result<(), AllocError>
    ensures { OnOk result (text.new.items ≡ text.old.items ++ prototype_text (head_of head.now) (map contract_of (map contract_view contracts.now))) }
{
    push_head(text, head)?;
    match contracts {
        [] => push(text, b";\n"),
        [first, rest @ ..] => {
            push(text, b"\n")?;
            push_contract(text, first)?;
            push_contracts(text, rest)?;
            push(text, b";\n")
        }
    }
}

fn push_field(text: &mut Vec<u8>, field: &Field) -> Result<(), AllocError>
    ensures { OnOk result (text.new.items ≡ text.old.items ++ field_text (field_of field.now)) }
{
    push_typed(text, &field.typed, field.name.name.as_slice())?;
    push(text, b";")
}

fn push_fields(text: &mut Vec<u8>, fields: &[Field]) -> Result<(), AllocError>
    ensures { OnOk result (text.new.items ≡ text.old.items ++ all_text field_text (map field_of fields.now)) }
{
    for field in fields {
        push_field(text, field)?;
    }
    Ok(())
}

fn push_struct(text: &mut Vec<u8>, name: &Named, fields: &[Field]) -> Result<(), AllocError>
    ensures { OnOk result (text.new.items ≡ text.old.items ++ struct_text name.now.name (map field_of fields.now)) }
{
    push(text, b"struct ")?;
    push(text, name.name.as_slice())?;
    push(text, b"{")?;
    push_fields(text, fields)?;
    push(text, b"};\n")
}

fn push_typedef(text: &mut Vec<u8>, typed: &TypeName, name: &Named) -> Result<(), AllocError>
    ensures { OnOk result (text.new.items ≡ text.old.items ++ typedef_text (type_of typed.now) name.now.name) }
{
    push(text, b"typedef ")?;
    push_typed(text, typed, name.name.as_slice())?;
    push(text, b";\n")
}

fn push_predicate(text: &mut Vec<u8>, predicate: &PredicateText) -> Result<(), AllocError>
    ensures { OnOk result (text.new.items ≡ text.old.items ++ predicate_text (predicate_of (predicate_view predicate.now))) }
{
    push(text, b"predicate ")?;
    push_signature(
        text,
        predicate.name.name.as_slice(),
        predicate.params.as_slice(),
    )?;
    push(text, b" = ")?;
    push_expr(text, &predicate.body)?;
    push(text, b";")
}

fn push_more_predicates(text: &mut Vec<u8>, predicates: &[PredicateText]) -> Result<(), AllocError>
    ensures { OnOk result (text.new.items ≡ text.old.items ++ spaced_text predicate_text (map predicate_of (map predicate_view predicates.now))) }
{
    for predicate in predicates {
        push(text, b" ")?;
        push_predicate(text, predicate)?;
    }
    Ok(())
}

fn push_joined_predicates(
    text: &mut Vec<u8>,
    predicates: &[PredicateText],
) -> Result<(), AllocError>
    ensures { OnOk result (text.new.items ≡ text.old.items ++ joined_text predicate_text (map predicate_of (map predicate_view predicates.now))) }
{
    match predicates {
        [] => Ok(()),
        [first, rest @ ..] => {
            push_predicate(text, first)?;
            push_more_predicates(text, rest)
        }
    }
}

fn push_predicates(text: &mut Vec<u8>, predicates: &[PredicateText]) -> Result<(), AllocError>
    ensures { OnOk result (text.new.items ≡ text.old.items ++ annotation_text predicate_text (map predicate_of (map predicate_view predicates.now))) }
{
    push(text, b"//@")?;
    push_joined_predicates(text, predicates)?;
    push(text, b"\n")
}

fn push_function(
    text: &mut Vec<u8>,
    head: &Head,
    contracts: &[Contract],
    body: &[Stmt],
) -> Result<(), AllocError>
    ensures { OnOk result (text.new.items ≡ text.old.items ++ function_text (head_of head.now) (map contract_of (map contract_view contracts.now)) (lines_of (stmts_view body.now))) }
{
    push_head(text, head)?;
    push(text, b"\n")?;
    push_contracts(text, contracts)?;
    push(text, b"{\n")?;
    push_stmts(text, body)?;
    push(text, b"}\n")
}

fn push_struct_name(text: &mut Vec<u8>, name: &Named) -> Result<(), AllocError>
    ensures { OnOk result (text.new.items ≡ text.old.items ++ struct_name_text name.now.name) }
{
    push(text, b"struct ")?;
    push(text, name.name.as_slice())?;
    push(text, b";\n")
}

fn push_item(text: &mut Vec<u8>, item: &Item) -> Result<(), AllocError>
    ensures { OnOk result (text.new.items ≡ text.old.items ++ item_text (item_of (item_view item.now))) }
{
    match item {
        Item::StructName { place: _, name } => push_struct_name(text, name),
        Item::Struct {
            place: _,
            name,
            fields,
        } => push_struct(text, name, fields.as_slice()),
        Item::Typedef {
            place: _,
            typed,
            name,
        } => push_typedef(text, typed, name),
        Item::Prototype { head, contract } => push_prototype(text, head, contract.as_slice()),
        Item::Function {
            head,
            contract,
            body,
            close: _,
        } => push_function(text, head, contract.as_slice(), body.as_slice()),
        Item::Predicates {
            place: _,
            predicates,
        } => push_predicates(text, predicates.as_slice()),
    }
}

fn push_items(text: &mut Vec<u8>, items: &[Item]) -> Result<(), AllocError>
    ensures { OnOk result (text.new.items ≡ text.old.items ++ all_text item_text (map item_of (map item_view items.now))) }
{
    for item in items {
        push_item(text, item)?;
    }
    Ok(())
}

fn use_bytes(library: Library) -> &'static [u8]
    ensures { result.now ≡ use_text (use_of library) }
{
    match library {
        Library::Conio => b"#use <conio>\n",
        Library::Intio => b"#use <intio>\n",
    }
}

fn push_uses(text: &mut Vec<u8>, uses: &[Library]) -> Result<(), AllocError>
    ensures { OnOk result (text.new.items ≡ text.old.items ++ all_text use_text (map use_of uses.now)) }
{
    for library in uses {
        push(text, use_bytes(*library))?;
    }
    Ok(())
}

// The text of a program.
fn program_bytes(alloc: Global, parsed: &Parsed) -> Result<Vec<u8>, AllocError>
    ensures { IfOk result (λ bytes. bytes.items ≡ printed (program_view parsed.now)) }
{
    let mut text = Vec::new(alloc);
    push_uses(&mut text, parsed.uses.as_slice())?;
    push_items(&mut text, parsed.items.as_slice())?;
    Ok(text)
}

/// The text of a program, in the layout of the crate. A text that was read is read again from what
/// is printed, as the same tree but for the places, and no deeper.
pub fn print_program(alloc: Global, parsed: &Parsed) -> Result<Vec<u8>, AllocError>
    ensures text { IfOk result (λ bytes. bytes.items ≡ printed (program_view parsed.now)) }
    ensures again { IfOk result (λ bytes. AreReadBack bytes.items (program_view parsed.now)) }
{
    reads_back();
    program_bytes(alloc, parsed)
}
