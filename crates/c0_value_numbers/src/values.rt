//! Shapes, numbers and fields.

ghost use Rattle.std.specs.Prelude.{◌≡◌, IfOk};
ghost use Rattle.std.specs.Option.{option_copied};
ghost use Rattle.c0_value_numbers.specs.Values.{base_shape, shape_of, number_in, field_of, field_at, accessed};

use c0_names::{BaseType, Index, Tables, TypedNames, ValueType};
use gc0_tree::Shape;
use std::alloc::AllocError;

/// A field of a struct, by number.
#[derive(Clone, Copy, Debug)]
pub struct FieldPlace {
    pub of_struct: usize,
    pub field: usize,
}

/// A number of the tree. One that does not fit is answered as want of memory.
pub fn small(n: usize) -> Result<u32, AllocError>
    ensures { IfOk result (λ r. r ≡ n) }
{
    match u32::try_from(n) {
        Ok(number) => Ok(number),
        Err(_) => Err(AllocError),
    }
}

fn base_shape(base: BaseType, stars: u64) -> Result<Shape, AllocError>
    ensures { IfOk result (λ s. s ≡ base_shape base stars) }
{
    match base {
        BaseType::Int => Ok(if stars == 0 { Shape::Int } else { Shape::Null }),
        BaseType::Bool => Ok(if stars == 0 { Shape::Bool } else { Shape::Null }),
        BaseType::Struct(k) => {
            if stars == 1 {
                Ok(Shape::Pointer(small(k)?))
            } else {
                Ok(Shape::Null)
            }
        }
    }
}

/// The shape of a value of this type.
pub fn shape_of(typed: ValueType) -> Result<Shape, AllocError>
    ensures { IfOk result (λ s. s ≡ shape_of typed) }
{
    match typed {
        ValueType::Written(base, stars) => base_shape(base, stars),
        ValueType::Null => Ok(Shape::Null),
        ValueType::Void => Ok(Shape::Null),
        ValueType::Text => Ok(Shape::Null),
    }
}

/// The last place of a name, or 0.
pub fn number_in(names: &Index, name: &[u8]) -> usize
    ensures { result ≡ number_in names.now name.now }
{
    names.last(name).unwrap_or(0)
}

fn field_of(of_struct: usize, fields: Option<&TypedNames>, name: &[u8]) -> FieldPlace
    ensures { result ≡ field_of of_struct (option_copied fields.entry) name.now }
{
    match fields {
        None => FieldPlace {
            of_struct,
            field: 0,
        },
        Some(fields) => FieldPlace {
            of_struct,
            field: number_in(&fields.names, name),
        },
    }
}

fn field_at(tables: &Tables, number: Option<usize>, name: &[u8]) -> FieldPlace
    ensures { result ≡ field_at tables.now number name.now }
{
    match number {
        None => FieldPlace {
            of_struct: 0,
            field: 0,
        },
        Some(of_struct) => field_of(of_struct, tables.fields_of(of_struct), name),
    }
}

// The field that `->` reads behind a value of this type.
fn accessed(tables: &Tables, typed: Option<ValueType>, name: &[u8]) -> FieldPlace
    ensures { result ≡ accessed tables.now typed name.now }
{
    match typed {
        None => field_at(tables, None, name),
        Some(typed) => field_at(tables, typed.pointed(), name),
    }
}

/// The numbers of the struct and of the field that `->` reads behind a value of this type.
pub fn access(
    tables: &Tables,
    typed: Option<ValueType>,
    name: &[u8],
) -> Result<(u32, u32), AllocError>
    ensures of_struct { IfOk result (λ n. n.0 ≡ (accessed tables.now typed name.now).of_struct) }
    ensures field { IfOk result (λ n. n.1 ≡ (accessed tables.now typed name.now).field) }
{
    let at = accessed(tables, typed, name);
    let of_struct = small(at.of_struct)?;
    let field = small(at.field)?;
    Ok((of_struct, field))
}
