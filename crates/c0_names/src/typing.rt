//! The types of expressions by the types of their parts. A part with a violation inside has none,
//! and then the whole has none.

ghost use Rattle.std.specs.Prelude.{◌≡◌, Some, None, if◌then◌else◌};
ghost use Rattle.std.specs.Option.{option_map, option_copied};
ghost use Rattle.c0_names.specs.Types.{bool, takes_to, prints_text, callee};
ghost use Rattle.c0_names.specs.Typing.{unary_typed, binary_typed, choice_typed, field_in, arrow_typed, allocated, argument_fits, params_of, called};

use crate::tables::{Signature, Tables};
use crate::types::{
    BOOL, BaseType, ValueType, binary_type, choice_type, given_if, library, prints_text, unary_type,
};
use parsed_tree::{Operator, UnaryOperator};

/// The type of an operator before its one operand.
pub fn unary_typed(operator: UnaryOperator, operand: Option<ValueType>) -> Option<ValueType>
    ensures { result ≡ unary_typed operator operand }
{
    unary_type(operator, operand?)
}

/// The type of an operator between its two operands.
pub fn binary_typed(
    operator: Operator,
    a: Option<ValueType>,
    b: Option<ValueType>,
) -> Option<ValueType>
    ensures { result ≡ binary_typed operator a b }
{
    binary_type(operator, a?, b?)
}

/// The type of a choice between two branches.
pub fn choice_typed(
    condition: Option<ValueType>,
    a: Option<ValueType>,
    b: Option<ValueType>,
) -> Option<ValueType>
    ensures { result ≡ choice_typed condition a b }
{
    choice_type(condition?, a?, b?)
}

/// The type of a field of the struct of this number.
pub fn field_in(tables: &Tables<'_>, number: Option<usize>, name: &[u8]) -> Option<ValueType>
    ensures { result ≡ field_in tables.now number name.now }
{
    match tables.fields_of(number?) {
        Some(fields) => fields.get(name),
        None => None,
    }
}

/// The type of the field that `->` reads behind a pointer of this type.
pub fn arrow_typed(tables: &Tables<'_>, base: Option<ValueType>, name: &[u8]) -> Option<ValueType>
    ensures { result ≡ arrow_typed tables.now base name.now }
{
    field_in(tables, base?.pointed(), name)
}

/// The type of `alloc` of the struct of this number, which is to be defined.
pub fn allocated(tables: &Tables<'_>, number: Option<usize>) -> Option<ValueType>
    ensures { result ≡ allocated tables.now number }
{
    let number = number?;
    let defined = tables.fields_of(number).is_some();
    given_if(defined, ValueType::Written(BaseType::Struct(number), 1))
}

/// Whether an argument has a type, and that of its parameter, if it has one.
pub fn argument_fits(due: Option<ValueType>, given: Option<ValueType>) -> bool
    ensures { result ≡ argument_fits due given }
{
    match given {
        Some(given) => match due {
            Some(due) => due.fits(given),
            None => true,
        },
        None => false,
    }
}

/// The types of the parameters of what is called, and that of its result. What is not known has
/// none of either.
pub fn parts_of(found: Option<&Signature>) -> (&[ValueType], Option<ValueType>)
    ensures known { option_map (λ r. takes_to result.0.now r) result.1 ≡ option_copied found.entry }
    ensures params { result.0.now ≡ params_of (option_copied found.entry) }
{
    match found {
        Some(signature) => (signature.params.as_slice(), Some(signature.result)),
        None => (&[], None),
    }
}

/// The same of what stands under a name: a library call, or a function that is defined.
pub fn callee<'t>(tables: &'t Tables<'_>, name: &[u8]) -> (&'t [ValueType], Option<ValueType>)
    ensures known { option_map (λ r. takes_to result.0.now r) result.1 ≡ callee tables.now.functions name.now }
    ensures params { result.0.now ≡ params_of (callee tables.now.functions name.now) }
{
    match library(name) {
        Some((params, gives)) => (params, Some(gives)),
        None => parts_of(tables.functions.get(name)),
    }
}

/// The type of a call with so many arguments, which fit or do not.
pub fn called(
    params: &[ValueType],
    gives: Option<ValueType>,
    fit: bool,
    count: usize,
) -> Option<ValueType>
    ensures { result ≡ called (option_map (λ r. takes_to params.now r) gives) fit count }
{
    if !fit {
        return None;
    }
    match gives {
        Some(gives) => given_if(params.len() == count, gives),
        None => None,
    }
}

/// The type of an `acc`: a truth, where its field has a type.
pub fn permission_typed(field: Option<ValueType>) -> Option<ValueType>
    ensures { result ≡ option_map (λ v. bool) field }
{
    match field {
        Some(_) => Some(BOOL),
        None => None,
    }
}

/// The type of a call with a string.
pub fn text_called(name: &[u8]) -> Option<ValueType>
    ensures { result ≡ (if prints_text name.now then Some ValueType.Void else None) }
{
    given_if(prints_text(name), ValueType::Void)
}
