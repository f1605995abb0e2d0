//! The sizes of a program's parts beside their limits.

ghost use Rattle.std.specs.Prelude.{◌≡◌, ◌≤◌, length, map};
ghost use Rattle.gc0_base.specs.declared.limits.TheConstants.Limits as limits;
ghost use Rattle.gc0_tree.specs.Views.{struct_view, function_view, program_view};
ghost use Rattle.program_limits.specs.Counts.{stmts_temporaries, first_past, limit_passed};

use crate::Limit;
use crate::temporaries::in_statements;
use gc0_base::Limits;
use gc0_tree::{Function, Program, Struct};

/// The first limit that a program passes, in the order of `Limit` and then by number. Takes no
/// memory.
pub fn limit_passed(program: &Program) -> Option<Limit>
    ensures { result ≡ limit_passed (program_view program.now) }
{
    if program.structs.len() > Limits::STRUCTS as usize {
        return Some(Limit::Structs);
    }
    if program.predicates.len() > Limits::PREDICATES as usize {
        return Some(Limit::Predicates);
    }
    if program.functions.len() > Limits::FUNCTIONS as usize {
        return Some(Limit::Functions);
    }
    if let Some(number) = fields_passed(program.structs.as_slice()) {
        return Some(Limit::Fields(number));
    }
    if let Some(number) = locals_passed(program.functions.as_slice()) {
        return Some(Limit::Locals(number));
    }
    temporaries_passed(program.functions.as_slice()).map(Limit::Temporaries)
}

// The first struct with too many fields.
fn fields_passed(structs: &[Struct]) -> Option<u32>
    requires { length structs.now ≤ limits.STRUCTS }
    ensures { result ≡ first_past limits.FIELDS 0 (map (λ s. length s.fields) (map struct_view structs.now)) }
{
    let mut number = 0;
    for s in structs {
        if s.fields.len() > Limits::FIELDS as usize {
            return Some(number);
        }
        number += 1;
    }
    None
}

// The first function with too many locals.
fn locals_passed(functions: &[Function]) -> Option<u32>
    requires { length functions.now ≤ limits.FUNCTIONS }
    ensures { result ≡ first_past limits.LOCALS 0 (map (λ f. length f.locals) (map function_view functions.now)) }
{
    let mut number = 0;
    for f in functions {
        if f.locals.len() > Limits::LOCALS as usize {
            return Some(number);
        }
        number += 1;
    }
    None
}

// The first function with a statement of too many temporaries.
fn temporaries_passed(functions: &[Function]) -> Option<u32>
    requires { length functions.now ≤ limits.FUNCTIONS }
    ensures { result ≡ first_past limits.TEMPORARIES 0 (map (λ f. stmts_temporaries f.body) (map function_view functions.now)) }
{
    let mut number = 0;
    for f in functions {
        if in_statements(f.body.as_slice()) > Limits::TEMPORARIES {
            return Some(number);
        }
        number += 1;
    }
    None
}
