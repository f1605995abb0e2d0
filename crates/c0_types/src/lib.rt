//! Resolves the names of a text of C0 that was read, and checks its types.
//!
//! `c0_rules` finds the violation of the typing rules that comes first in the text. Where there is
//! none, `c0_numbers` makes the resolved tree.
#![tactic(auto)]

ghost use Rattle.std.specs.Prelude.{◌≡◌, [], IfOk, IfErr};
ghost use Rattle.parsed_tree.specs.Views as read;
ghost use Rattle.c0_names.specs.Tables.{tables_of};
ghost use Rattle.gc0_tree.specs.Views.{program_view};
ghost use Rattle.gc0_tree.specs.Fits.{Fits};
ghost use Rattle.c0_value_rules.specs.Violations.{Reports};
ghost use Rattle.c0_rules.specs.Rules.{violations};
ghost use Rattle.c0_numbers.specs.Resolved.{resolved};

use c0_names::{Tables, tables_of};
use c0_numbers::numbered_by;
use c0_rules::{fault_at, least_violation_by};
pub use c0_rules::{Rule, TypeFault, Violation};
use gc0_tree::Program;
use parsed_tree::Parsed;
use std::alloc::Global;

/// The resolved tree of a text that was read: numbers in place of names, and its clauses joined.
/// The rules are those of the C0 Reference for types, scopes and paths, and those of Gradual C0 for
/// contracts.
///
/// The recursion is as deep as the text's expressions and statements.
///
/// # Errors
///
/// The violation of a typing rule that comes first in the text; at one place the rules stand in
/// the order of `Rule`, and that there is no `main` is reported only where nothing else is.
/// `Memory` where there is not memory enough, where a type has more than 2^64 - 1 `*`, or where
/// there are more than 2^32 - 1 of what is numbered.
pub fn resolve(alloc: Global, parsed: &Parsed) -> Result<Program, TypeFault>
    ensures kept { IfOk result (λ q. violations (read.program_view parsed.now) ≡ []) }
    ensures program { IfOk result (λ q. program_view q ≡ resolved (read.program_view parsed.now)) }
    ensures fits { IfOk result (λ q. Fits (program_view q)) }
    ensures fault { IfErr result (λ f. Reports (violations (read.program_view parsed.now)) f) }
{
    let mut tables = tables_of(alloc, parsed)?;
    resolve_by(alloc, parsed, &mut tables)
}

// The same by the tables of the text.
fn resolve_by<'a>(
    alloc: Global,
    parsed: &'a Parsed,
    tables: &mut Tables<'a>,
) -> Result<Program, TypeFault>
    requires { tables.old ≡ tables_of (read.program_view parsed.now) }
    ensures kept { IfOk result (λ q. violations (read.program_view parsed.now) ≡ []) }
    ensures program { IfOk result (λ q. program_view q ≡ resolved (read.program_view parsed.now)) }
    ensures fault { IfErr result (λ f. Reports (violations (read.program_view parsed.now)) f) }
{
    match least_violation_by(alloc, parsed, tables)? {
        Some(least) => Err(fault_at(least.rule, least.place)),
        None => Ok(numbered_by(alloc, parsed, tables)?),
    }
}
