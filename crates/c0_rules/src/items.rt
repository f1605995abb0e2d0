//! The violations in the items of a text.

#![tactic(auto, using(c0_value_rules::specs::Least::least_both))]

ghost use Rattle.std.specs.Prelude.{◌≡◌, ◌++◌, [], fold, map, length, IfOk, OnOk, Some, None, MatchOption, not, is_some};
ghost use Rattle.std.specs.Option.{option_map, option_copied};
ghost use Rattle.parsed_tree.specs.Views.{expr_view, exprs_view, stmts_view, clause_view, contract_view, predicate_view, item_view, program_view};
ghost use Rattle.c0_value_rules.specs.declared.violation.Rule.TheVariants.{Twice, WrongType, NoMain};
ghost use Rattle.c0_value_rules.specs.Violations.{earlier, least_of, unless};
ghost use Rattle.c0_names.specs.Names.{names_with, last_place};
ghost use Rattle.c0_names.specs.Tables.{struct_number, fields_of, value_type, result_type, head_signature, signature_in, with_item, with_predicate, no_types, fields_behind, tables_above, tables_of, struct_names};
ghost use Rattle.c0_names.specs.Types.{is_void, library, same_type};
ghost use Rattle.c0_value_rules.specs.Scopes.{no_scope};
ghost use Rattle.c0_rules.specs.Statements.{held_violations, declared_violations};
ghost use Rattle.c0_rules.specs.Rules.{param_behind, params_scope, params_violations, result_violations, head_violations, outcome_in, sides_violations, contract_violations, end_violations, function_violations, library_violations, second_violations, same_types, is_like, likeness_violations, fields_violations, predicate_violations, predicates_violations, item_violations, items_violations, unaliased, tables_before, main_name, start, is_main, violations, ensured};

use crate::ensured::ensured;
use crate::statements::{declared, held, statements};
use c0_names::{
    Callables, INT, Index, Signature, Tables, TypedNames, ValueType, library, struct_names,
    tables_of,
};
use c0_value_rules::{Flow, Rule, Scope, Standing, Violation, formula, parts, report_unless};
use gc0_base::Place;
use parsed_tree::{
    Clause, Contract, Field, Head, Item, Named, Param, Parsed, PredicateText, ResultType, Side,
    Stmt,
};
use std::alloc::{AllocError, Global};

// A parameter comes into scope. It is fixed where `ensures` names it.
fn param<'a>(
    tables: &Tables<'_>,
    fixed: &Index<'_>,
    scope: &mut Scope<'a>,
    param: &'a Param,
    least: &mut Option<Violation>,
) -> Result<(), AllocError>
    ensures least { OnOk result (least.new ≡ fold earlier least.old (held_violations tables.now param.now.typed ++ declared_violations scope.old param.now.name)) }
    ensures scope { OnOk result (scope.new ≡ param_behind tables.now fixed.now scope.old param.now) }
{
    let holds = held(tables, &param.typed, least)?;
    declared(scope, &param.name, least);
    let name = param.name.name.as_slice();
    let fixed = fixed.last(name).is_some();
    scope.declare(name, Standing { holds, fixed }, true)
}

// The parameters come into scope.
fn params<'a>(
    tables: &Tables<'_>,
    fixed: &Index<'_>,
    scope: &mut Scope<'a>,
    params: &'a [Param],
    least: &mut Option<Violation>,
) -> Result<(), AllocError>
    ensures least { OnOk result (least.new ≡ fold earlier least.old (params_violations tables.now fixed.now scope.old params.now)) }
    ensures scope { OnOk result (scope.new ≡ params_scope tables.now fixed.now scope.old params.now) }
{
    for part in params {
        param(tables, fixed, scope, part, least)?;
    }
    Ok(())
}

// The type of the result.
fn result_of(
    tables: &Tables<'_>,
    written: &ResultType,
    least: &mut Option<Violation>,
) -> Result<ValueType, AllocError>
    ensures typed { IfOk result (λ r. r ≡ result_type tables.now written.now) }
    ensures least { IfOk result (λ r. least.new ≡ fold earlier least.old (result_violations tables.now written.now)) }
{
    match written {
        ResultType::Void(_) => Ok(ValueType::Void),
        ResultType::Typed(typed) => held(tables, typed, least),
    }
}

// The head of a function or prototype. Its parameters come into scope.
fn head<'a>(
    tables: &Tables<'_>,
    fixed: &Index<'_>,
    scope: &mut Scope<'a>,
    head: &'a Head,
    least: &mut Option<Violation>,
) -> Result<ValueType, AllocError>
    requires { scope.old ≡ no_scope }
    ensures typed { IfOk result (λ r. r ≡ result_type tables.now head.now.result) }
    ensures least { IfOk result (λ r. least.new ≡ fold earlier least.old (head_violations tables.now fixed.now head.now)) }
    ensures scope { IfOk result (λ r. scope.new ≡ params_scope tables.now fixed.now no_scope head.now.params) }
{
    let gives = result_of(tables, &head.result, least)?;
    params(tables, fixed, scope, head.params.as_slice(), least)?;
    Ok(gives)
}

// The type of `\result` in a clause.
fn outcome_in(gives: ValueType, side: Side) -> Option<ValueType>
    ensures { result ≡ outcome_in gives side }
{
    match side {
        Side::Requires => None,
        Side::Ensures => { if gives.is_void() { None } else { Some(gives) } }
    }
}

fn sides(
    tables: &Tables<'_>,
    scope: &Scope<'_>,
    gives: ValueType,
    clauses: &[Clause],
    least: &mut Option<Violation>,
) -> Result<(), AllocError>
    ensures { OnOk result (least.new ≡ fold earlier least.old (sides_violations tables.now scope.now gives (map clause_view clauses.now))) }
{
    for clause in clauses {
        let outcome = outcome_in(gives, clause.side);
        formula(tables, scope, outcome, &clause.formula, least)?;
    }
    Ok(())
}

fn contracts(
    tables: &Tables<'_>,
    scope: &Scope<'_>,
    gives: ValueType,
    contracts: &[Contract],
    least: &mut Option<Violation>,
) -> Result<(), AllocError>
    ensures { OnOk result (least.new ≡ fold earlier least.old (contract_violations tables.now scope.now gives (map contract_view contracts.now))) }
{
    for contract in contracts {
        sides(tables, scope, gives, contract.clauses.as_slice(), least)?;
    }
    Ok(())
}

// No path leads to the end of a function with a result.
fn end(close: Place, gives: ValueType, flow: &Flow, least: &mut Option<Violation>)
    ensures { least.new ≡ fold earlier least.old (end_violations close gives flow.now) }
{
    let kept = gives.is_void() || !flow.live;
    report_unless(least, kept, Rule::NoReturn, close);
}

// A function behind its head.
fn body<'a>(
    alloc: Global,
    tables: &Tables<'_>,
    scope: &mut Scope<'a>,
    gives: ValueType,
    contract: &[Contract],
    body: &'a [Stmt],
    close: Place,
    least: &mut Option<Violation>,
) -> Result<(), AllocError>
    ensures { OnOk result (least.new ≡ fold earlier least.old (function_violations tables.now scope.old gives (map contract_view contract.now) (stmts_view body.now) close)) }
{
    contracts(tables, scope, gives, contract, least)?;
    statements(alloc, tables, gives, scope, body, least)?;
    end(close, gives, &scope.flow, least);
    Ok(())
}

// The name of a library call is none of a function.
fn no_library(name: &Named, least: &mut Option<Violation>)
    ensures { least.new ≡ fold earlier least.old (library_violations name.now) }
{
    let is_own = library(name.name.as_slice()).is_none();
    report_unless(least, is_own, Rule::Twice, name.place);
}

// A name is none of those that are defined above.
fn no_second(above: &Index<'_>, name: &Named, least: &mut Option<Violation>)
    ensures { least.new ≡ fold earlier least.old (second_violations above.now name.now) }
{
    let is_first = above.last(name.name.as_slice()).is_none();
    report_unless(least, is_first, Rule::Twice, name.place);
}

#[tactic(auto, using(crate::proofs::Likeness::types_differ))]
fn same_types(a: &[ValueType], b: &[ValueType]) -> bool
    ensures { result ≡ same_types a.now b.now }
{
    if a.len() != b.len() {
        return false;
    }
    for (place, v) in a.iter().enumerate() {
        if !v.is(b[place]) {
            return false;
        }
    }
    true
}

fn is_like(signature: &Signature, other: Option<&Signature>) -> bool
    ensures { result ≡ is_like signature.now (option_copied other.entry) }
{
    match other {
        Some(other) => {
            signature.result.is(other.result)
                && same_types(signature.params.as_slice(), other.params.as_slice())
        }
        None => true,
    }
}

// A prototype is like the first of its name, and like the definition.
fn likeness(
    name: &Named,
    signature: &Signature,
    first: &Callables<'_>,
    defined: &Callables<'_>,
    least: &mut Option<Violation>,
)
    ensures { least.new ≡ fold earlier least.old (likeness_violations name.now signature.now (signature_in first.now name.now.name) (signature_in defined.now name.now.name)) }
{
    let bytes = name.name.as_slice();
    let like_first = is_like(signature, first.get(bytes));
    report_unless(least, like_first, Rule::WrongType, name.place);
    let like_defined = is_like(signature, defined.get(bytes));
    report_unless(least, like_defined, Rule::WrongType, name.place);
}

// A field, behind those that stand before it.
fn field(
    tables: &Tables<'_>,
    before: &Index<'_>,
    field: &Field,
    least: &mut Option<Violation>,
) -> Result<ValueType, AllocError>
    ensures typed { IfOk result (λ v. v ≡ value_type tables.now field.now.typed) }
    ensures least { IfOk result (λ v. least.new ≡ fold earlier least.old (held_violations tables.now field.now.typed ++ second_violations before.now field.now.name)) }
{
    let typed = held(tables, &field.typed, least)?;
    no_second(before, &field.name, least);
    Ok(typed)
}

// The fields of a struct.
fn fields<'a>(
    alloc: Global,
    tables: &Tables<'_>,
    fields: &'a [Field],
    least: &mut Option<Violation>,
) -> Result<(), AllocError>
    ensures { OnOk result (least.new ≡ fold earlier least.old (fields_violations tables.now no_types fields.now)) }
{
    let mut made = TypedNames::new(alloc);
    for part in fields {
        let typed = field(tables, &made.names, part, least)?;
        made.add(part.name.name.as_slice(), typed)?;
    }
    Ok(())
}

// The parameters of a predicate, or of a head without a contract, where none is fixed.
fn loose_params<'a>(
    alloc: Global,
    tables: &Tables<'_>,
    scope: &mut Scope<'a>,
    parts: &'a [Param],
    least: &mut Option<Violation>,
) -> Result<(), AllocError>
    ensures least { OnOk result (least.new ≡ fold earlier least.old (params_violations tables.now [] scope.old parts.now)) }
    ensures scope { OnOk result (scope.new ≡ params_scope tables.now [] scope.old parts.now) }
{
    let fixed = Index::new(alloc);
    params(tables, &fixed, scope, parts, least)
}

fn predicate(
    alloc: Global,
    tables: &Tables<'_>,
    above: &Index<'_>,
    predicate: &PredicateText,
    least: &mut Option<Violation>,
) -> Result<(), AllocError>
    ensures { OnOk result (least.new ≡ fold earlier least.old (second_violations above.now predicate.now.name ++ predicate_violations tables.now (predicate_view predicate.now))) }
{
    no_second(above, &predicate.name, least);
    let mut scope = Scope::new(alloc);
    loose_params(
        alloc,
        tables,
        &mut scope,
        predicate.params.as_slice(),
        least,
    )?;
    parts(tables, &scope, None, &predicate.body, least)
}

// Predicates. They come into the tables above.
fn predicates<'a>(
    alloc: Global,
    tables: &Tables<'_>,
    above: &mut Tables<'a>,
    predicates: &'a [PredicateText],
    least: &mut Option<Violation>,
) -> Result<(), AllocError>
    ensures least { OnOk result (least.new ≡ fold earlier least.old (predicates_violations tables.now above.old (map predicate_view predicates.now))) }
    ensures above { OnOk result (above.new ≡ fold with_predicate above.old (map predicate_view predicates.now)) }
{
    for part in predicates {
        predicate(alloc, tables, &above.predicates.names, part, least)?;
        above.add_predicate(alloc, part)?;
    }
    Ok(())
}

// A function with the parameters that its `ensures` names.
fn fixed_function<'a>(
    alloc: Global,
    tables: &Tables<'_>,
    fixed: &Index<'_>,
    function: &'a Head,
    contract: &[Contract],
    code: &'a [Stmt],
    close: Place,
    least: &mut Option<Violation>,
) -> Result<(), AllocError>
    ensures { OnOk result (least.new ≡ fold earlier least.old (head_violations tables.now fixed.now function.now ++ function_violations tables.now (params_scope tables.now fixed.now no_scope function.now.params) (result_type tables.now function.now.result) (map contract_view contract.now) (stmts_view code.now) close)) }
{
    let mut scope = Scope::new(alloc);
    let gives = head(tables, fixed, &mut scope, function, least)?;
    body(
        alloc, tables, &mut scope, gives, contract, code, close, least,
    )
}

fn function<'a>(
    alloc: Global,
    tables: &Tables<'_>,
    above: &Index<'_>,
    function: &'a Head,
    contract: &'a [Contract],
    code: &'a [Stmt],
    close: Place,
    least: &mut Option<Violation>,
) -> Result<(), AllocError>
    ensures { OnOk result (least.new ≡ fold earlier least.old (library_violations function.now.name ++ (second_violations above.now function.now.name ++ (head_violations tables.now (ensured (map contract_view contract.now)) function.now ++ function_violations tables.now (params_scope tables.now (ensured (map contract_view contract.now)) no_scope function.now.params) (result_type tables.now function.now.result) (map contract_view contract.now) (stmts_view code.now) close)))) }
{
    no_library(&function.name, least);
    no_second(above, &function.name, least);
    let fixed = ensured(alloc, contract)?;
    fixed_function(
        alloc, tables, &fixed, function, contract, code, close, least,
    )
}

// The head of a prototype. Its parameters are a scope of their own.
fn prototype_head(
    alloc: Global,
    tables: &Tables<'_>,
    prototype: &Head,
    least: &mut Option<Violation>,
) -> Result<(), AllocError>
    ensures { OnOk result (least.new ≡ fold earlier least.old (head_violations tables.now [] prototype.now)) }
{
    result_of(tables, &prototype.result, least)?;
    let mut scope = Scope::new(alloc);
    loose_params(
        alloc,
        tables,
        &mut scope,
        prototype.params.as_slice(),
        least,
    )
}

fn prototype(
    alloc: Global,
    tables: &Tables<'_>,
    above: &Callables<'_>,
    prototype: &Head,
    least: &mut Option<Violation>,
) -> Result<(), AllocError>
    ensures { OnOk result (least.new ≡ fold earlier least.old (library_violations prototype.now.name ++ (head_violations tables.now [] prototype.now ++ likeness_violations prototype.now.name (head_signature tables.now prototype.now) (signature_in above.now prototype.now.name.name) (signature_in tables.now.functions prototype.now.name.name)))) }
{
    no_library(&prototype.name, least);
    prototype_head(alloc, tables, prototype, least)?;
    let signature = tables.head_signature(alloc, prototype)?;
    likeness(&prototype.name, &signature, above, &tables.functions, least);
    Ok(())
}

// The definition of a struct.
fn struct_item(
    alloc: Global,
    tables: &Tables<'_>,
    above: &Tables<'_>,
    name: &Named,
    parts: &[Field],
    least: &mut Option<Violation>,
) -> Result<(), AllocError>
    ensures { OnOk result (least.new ≡ fold earlier least.old (unless (not (is_some (fields_of above.now (struct_number above.now.structs name.now.name)))) Twice name.now.place ++ fields_violations tables.now no_types parts.now)) }
{
    let number = above.struct_number(name.name.as_slice());
    let is_first = above.fields_of(number).is_none();
    report_unless(least, is_first, Rule::Twice, name.place);
    fields(alloc, tables, parts, least)
}

// An item. It comes into the tables above.
fn item<'a>(
    alloc: Global,
    tables: &Tables<'_>,
    above: &mut Tables<'a>,
    item: &'a Item,
    least: &mut Option<Violation>,
) -> Result<(), AllocError>
    ensures least { OnOk result (least.new ≡ fold earlier least.old (item_violations tables.now above.old (item_view item.now))) }
    ensures above { OnOk result (above.new ≡ with_item above.old (item_view item.now)) }
{
    match item {
        Item::StructName { .. } => above.add_item(alloc, item),
        Item::Struct { name, fields, .. } => {
            struct_item(alloc, tables, above, name, fields.as_slice(), least)?;
            above.add_item(alloc, item)
        }
        Item::Typedef { name, .. } => {
            no_second(&tables.aliases.names, name, least);
            above.add_item(alloc, item)
        }
        Item::Prototype { head, .. } => {
            prototype(alloc, tables, &above.prototypes, head, least)?;
            above.add_item(alloc, item)
        }
        Item::Function {
            head,
            contract,
            body,
            close,
        } => {
            let names = &above.functions.names;
            let contract = contract.as_slice();
            function(
                alloc,
                tables,
                names,
                head,
                contract,
                body.as_slice(),
                *close,
                least,
            )?;
            above.add_item(alloc, item)
        }
        Item::Predicates {
            predicates: parts,
            ..
        } => predicates(alloc, tables, above, parts.as_slice(), least),
    }
}

// The violation of all items that comes first. Their typedefs come into the tables.
#[tactic(auto, using(crate::proofs::Aliases::rest_kept))]
fn in_items<'a>(
    alloc: Global,
    tables: &mut Tables<'a>,
    above: &mut Tables<'a>,
    items: &'a [Item],
) -> Result<Option<Violation>, AllocError>
    ensures least { IfOk result (λ least. least ≡ least_of (items_violations tables.old above.old (map item_view items.now))) }
    ensures rest { IfOk result (λ least. unaliased tables.new ≡ unaliased tables.old) }
{
    let mut least = None;
    for part in items {
        item(alloc, tables, above, part, &mut least)?;
        tables.add_alias(part)?;
    }
    Ok(least)
}

// Whether there is `int main()`.
fn has_main(tables: &Tables<'_>) -> bool
    ensures { result ≡ is_main (signature_in tables.now.functions main_name) }
{
    match tables.functions.get(b"main") {
        Some(main) => main.result.is(INT) && main.params.len() == 0,
        None => false,
    }
}

// That there is no `main`, at the start of the text.
fn missing_main(has_main: bool) -> Option<Violation>
    ensures { result ≡ least_of (unless has_main NoMain start) }
{
    let mut least = None;
    let start = Place { line: 1, column: 1 };
    report_unless(&mut least, has_main, Rule::NoMain, start);
    least
}

// The tables above the first item of a text.
fn tables_above<'a>(alloc: Global, parsed: &'a Parsed) -> Result<Tables<'a>, AllocError>
    ensures { IfOk result (λ t. t ≡ tables_above (struct_names (program_view parsed.now))) }
{
    let structs = struct_names(alloc, parsed)?;
    Tables::new(alloc, structs)
}

// The violation of items that comes first, behind those that the tables above have.
fn in_items_below<'a>(
    alloc: Global,
    tables: &mut Tables<'a>,
    above: Tables<'a>,
    items: &'a [Item],
) -> Result<Option<Violation>, AllocError>
    ensures least { IfOk result (λ least. least ≡ least_of (items_violations tables.old above.entry (map item_view items.now))) }
    ensures rest { IfOk result (λ least. unaliased tables.new ≡ unaliased tables.old) }
{
    let mut above = above;
    in_items(alloc, tables, &mut above, items)
}

// The violation of all items that comes first, by the tables of the text without its typedefs.
fn in_all_items<'a>(
    alloc: Global,
    tables: &mut Tables<'a>,
    parsed: &'a Parsed,
) -> Result<Option<Violation>, AllocError>
    ensures least { IfOk result (λ least. least ≡ least_of (items_violations tables.old (tables_above (struct_names (program_view parsed.now))) (map item_view parsed.now.items))) }
    ensures rest { IfOk result (λ least. unaliased tables.new ≡ unaliased tables.old) }
{
    let above = tables_above(alloc, parsed)?;
    in_items_below(alloc, tables, above, parsed.items.as_slice())
}

// The same by the tables of the text. Its typedefs are taken out, and come back behind the items.
#[tactic(auto, using(crate::proofs::Aliases::back))]
fn in_text<'a>(
    alloc: Global,
    tables: &mut Tables<'a>,
    parsed: &'a Parsed,
) -> Result<Option<Violation>, AllocError>
    ensures least { IfOk result (λ least. least ≡ least_of (items_violations (unaliased tables.old) (tables_above (struct_names (program_view parsed.now))) (map item_view parsed.now.items))) }
    ensures tables { IfOk result (λ least. tables.new ≡ tables.old) }
{
    let aliases = std::mem::replace(&mut tables.aliases, TypedNames::new(alloc));
    let least = in_all_items(alloc, tables, parsed)?;
    let _ = std::mem::replace(&mut tables.aliases, aliases);
    Ok(least)
}

/// The same as `least_violation`, by the tables of the text. They are as they were behind it.
///
/// What stands above an item is gathered in tables of its own, as the text goes on: the rules on
/// second definitions compare each item with them.
///
/// # Errors
///
/// Where there is not memory enough.
#[tactic(auto, using(crate::proofs::Found::found_among, crate::proofs::Found::found_others, crate::proofs::Least::none_found))]
pub fn least_violation_by<'a>(
    alloc: Global,
    parsed: &'a Parsed,
    tables: &mut Tables<'a>,
) -> Result<Option<Violation>, AllocError>
    requires { tables.old ≡ tables_of (program_view parsed.now) }
    ensures least { IfOk result (λ least. least ≡ least_of (violations (program_view parsed.now))) }
    ensures none { IfOk result (λ least. MatchOption least (violations (program_view parsed.now) ≡ []) (λ v. least_of (violations (program_view parsed.now)) ≡ Some v)) }
    ensures tables { IfOk result (λ least. tables.new ≡ tables.old) }
{
    let main = has_main(tables);
    match in_text(alloc, tables, parsed)? {
        Some(least) => Ok(Some(least)),
        None => Ok(missing_main(main)),
    }
}

/// The violation of the typing rules that comes first in a text, or none. At one place the rules
/// stand in the order of `Rule`, and that there is no `main` is found only where nothing else is.
///
/// The recursion is as deep as the text's expressions and blocks.
///
/// # Errors
///
/// Where there is not memory enough.
pub fn least_violation(alloc: Global, parsed: &Parsed) -> Result<Option<Violation>, AllocError>
    ensures least { IfOk result (λ least. least ≡ least_of (violations (program_view parsed.now))) }
    ensures none { IfOk result (λ least. MatchOption least (violations (program_view parsed.now) ≡ []) (λ v. least_of (violations (program_view parsed.now)) ≡ Some v)) }
{
    let mut tables = tables_of(alloc, parsed)?;
    least_violation_by(alloc, parsed, &mut tables)
}
