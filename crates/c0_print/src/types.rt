//! Types, and names with their types.

ghost use Rattle.std.specs.Prelude.{◌≡◌, ◌++◌, OnOk};
ghost use Rattle.c0_layout.specs.Lists.{all_text};
ghost use Rattle.c0_layout.specs.Layout.{star_text, base_text, type_text, typed_text};
ghost use Rattle.c0_print.specs.Printing.{nowheres, base_of, type_of};

use c0_layout::push;
use parsed_tree::{Base, TypeName};
use std::alloc::AllocError;

fn push_base(text: &mut Vec<u8>, base: &Base) -> Result<(), AllocError>
    ensures { OnOk result (text.new.items ≡ text.old.items ++ base_text (base_of base.now)) }
{
    match base {
        Base::Int => push(text, b"int"),
        Base::Bool => push(text, b"bool"),
        Base::Struct(name) => {
            push(text, b"struct ")?;
            push(text, name.name.as_slice())
        }
        Base::Alias(name) => push(text, name.as_slice()),
    }
}

fn push_stars(text: &mut Vec<u8>, stars: u32) -> Result<(), AllocError>
    ensures { OnOk result (text.new.items ≡ text.old.items ++ all_text star_text (nowheres stars)) }
{
    for _ in 0..stars {
        text.push(b'*')?;
    }
    Ok(())
}

/// A type.
pub(crate) fn push_type(text: &mut Vec<u8>, typed: &TypeName) -> Result<(), AllocError>
    ensures { OnOk result (text.new.items ≡ text.old.items ++ type_text (type_of typed.now)) }
{
    push_base(text, &typed.base)?;
    push_stars(text, typed.stars)
}

/// A type and a name.
pub(crate) fn push_typed(
    text: &mut Vec<u8>,
    typed: &TypeName,
    name: &[u8],
) -> Result<(), AllocError>
    ensures { OnOk result (text.new.items ≡ text.old.items ++ typed_text (type_of typed.now) name.now) }
{
    push_type(text, typed)?;
    push(text, b" ")?;
    push(text, name)
}
