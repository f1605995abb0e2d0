//! What the names of a text of C0 stand for: its structs with their fields, its typedefs, functions
//! and predicates, and the types of values with what the operators make of them.
#![tactic(auto)]

mod index;
mod structs;
mod tables;
mod types;
mod typing;

pub use index::Index;
pub use structs::struct_names;
pub use tables::{Callables, Signature, Tables, TypedNames, tables_of};
pub use types::{
    BOOL, BaseType, INT, ValueType, binary_type, choice_type, library, prints_text, unary_type,
};
pub use typing::{
    allocated, argument_fits, arrow_typed, binary_typed, called, callee, choice_typed, field_in,
    parts_of, permission_typed, text_called, unary_typed,
};
