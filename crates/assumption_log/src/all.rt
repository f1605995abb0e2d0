//! The record that keeps all that is decided.

ghost use Rattle.std.specs.Prelude.{◌≡◌, ◌++◌, [], ◌∷◌, true, false, Bool, Some, map, slice_get, IfOk, OnOk, OnErr, All};
ghost use Rattle.gc0_tree.specs.Views.{conjuncts_view, formula_view};
ghost use Rattle.core_tree.specs.CoreViews.{core_view, core_function_view, core_stmt_view, code_view};
ghost use Rattle.core_meaning.specs.CoreRunning.{before_of};
ghost use Rattle.core_checks.specs.Subjects.{of_formula, subject_at_one, stmt_subjects, code_subjects, start_subjects, function_subjects};
ghost use Rattle.core_checks.specs.Entries.{Entry};
ghost use Rattle.assumption_log.specs.Records.{record_view};
ghost use Rattle.assumption_log.specs.AllKept.{has_parts, all_entries, entries_from, free_entry};
ghost use Rattle.assumption_log.specs.Keeping.{with_reason, note_subjects, Adds};

use crate::{Kept, Reason, Record};
use core_tree::{Core, CoreFunction, CoreStmt};
use gc0_base::{Kind, Part, Site};
use gc0_tree::{Formula, Note};
use sqlite_items::Items;
use std::alloc::{AllocError, Global};

// Where the memory of entries comes from, and why they are kept.
#[derive(Clone, Copy)]
struct How {
    alloc: Global,
    reason: Reason,
}

/// The record that keeps all that is decided: the whole at each site of a formula that has a
/// conjunct, and each access, function by function and in the order of the code. No entry has a
/// decision.
///
/// Errors: there was not memory enough.
pub fn keep_all(alloc: Global, core: &Core, reason: Reason) -> Result<Record, AllocError>
    ensures entries { IfOk result (λ r. record_view r ≡ all_entries (core_view core.now)) }
    ensures reasons { IfOk result (λ r. All (λ entry. entry.reason ≡ reason) r.entries) }
{
    let entries = kept_entries(How { alloc, reason }, core)?;
    Ok(Record { entries })
}

fn kept_entries(how: How, core: &Core) -> Result<Items<Kept>, AllocError>
    ensures { IfOk result (λ es. es ≡ map (with_reason how.reason) (all_entries (core_view core.now))) }
{
    let mut entries = Items::new(how.alloc);
    for (number, function) in core.functions.as_slice().iter().enumerate() {
        keep_function(&mut entries, how, core, number, function)?;
    }
    Ok(entries)
}

fn keep_function(
    entries: &mut Items<Kept>,
    how: How,
    core: &Core,
    number: usize,
    function: &CoreFunction,
) -> Result<(), AllocError>
    ensures { OnOk result (Adds how.reason entries.old (function_subjects (core_view core.now) number (Some (core_function_view function.now))) entries.new) }
{
    keep_start(entries, how, core, number, function)?;
    keep_code(entries, how, core, function, function.body.as_slice())
}

// The start of the program, if this function is `main`.
fn keep_start(
    entries: &mut Items<Kept>,
    how: How,
    core: &Core,
    number: usize,
    function: &CoreFunction,
) -> Result<(), AllocError>
    ensures { OnOk result (Adds how.reason entries.old (start_subjects (core_view core.now) number (core_function_view function.now)) entries.new) }
{
    if number != core.main as usize {
        return Ok(());
    }
    let site = Site {
        function: core.main,
        kind: Kind::Start,
        ordinal: 0,
    };
    keep_formula(entries, how, site, &function.before)
}

#[cycle(keeping)]
fn keep_code(
    entries: &mut Items<Kept>,
    how: How,
    core: &Core,
    function: &CoreFunction,
    code: &[CoreStmt],
) -> Result<(), AllocError>
    ensures { OnOk result (Adds how.reason entries.old (code_subjects (core_view core.now) (core_function_view function.now) (code_view code.now)) entries.new) }
{
    for s in code {
        keep_stmt(entries, how, core, function, s)?;
    }
    Ok(())
}

#[cycle(keeping)]
fn keep_stmt(
    entries: &mut Items<Kept>,
    how: How,
    core: &Core,
    function: &CoreFunction,
    s: &CoreStmt,
) -> Result<(), AllocError>
    ensures { OnOk result (Adds how.reason entries.old (stmt_subjects (core_view core.now) (core_function_view function.now) (core_stmt_view s.now)) entries.new) }
{
    match s {
        CoreStmt::Load { site, .. } => keep_part(entries, how, *site, Part::Access),
        CoreStmt::Store { site, .. } => keep_part(entries, how, *site, Part::Access),
        CoreStmt::Call {
            function: callee,
            site,
            ..
        } => keep_before(entries, how, core, *callee, *site),
        CoreStmt::If { yes, no, .. } => {
            keep_code(entries, how, core, function, yes.as_slice())?;
            keep_code(entries, how, core, function, no.as_slice())
        }
        CoreStmt::Loop {
            entry,
            again,
            invariant,
            test,
            body,
            ..
        } => {
            keep_formula(entries, how, *entry, invariant)?;
            keep_formula(entries, how, *again, invariant)?;
            keep_code(entries, how, core, function, test.as_slice())?;
            keep_code(entries, how, core, function, body.as_slice())
        }
        CoreStmt::Return { site, .. } => keep_formula(entries, how, *site, &function.after),
        CoreStmt::Note { note, site } => keep_note(entries, how, note, *site),
        _ => Ok(()),
    }
}

// The whole of a callee's `requires`.
fn keep_before(
    entries: &mut Items<Kept>,
    how: How,
    core: &Core,
    callee: u32,
    site: Site,
) -> Result<(), AllocError>
    ensures { OnOk result (Adds how.reason entries.old (subject_at_one site (of_formula false (before_of (slice_get (core_view core.now).functions callee)))) entries.new) }
{
    match core.functions.get(callee as usize) {
        None => Ok(()),
        Some(function) => keep_formula(entries, how, site, &function.before),
    }
}

fn keep_note(entries: &mut Items<Kept>, how: How, note: &Note, site: Site) -> Result<(), AllocError>
    ensures { OnOk result (Adds how.reason entries.old (note_subjects note.now site) entries.new) }
{
    match note {
        Note::Assert(formula) => keep_formula(entries, how, site, formula),
        Note::Fold(formula) => keep_formula(entries, how, site, formula),
        Note::Unfold(formula) => keep_formula(entries, how, site, formula),
    }
}

// The whole of a formula that has a conjunct.
fn keep_formula(
    entries: &mut Items<Kept>,
    how: How,
    site: Site,
    formula: &Formula,
) -> Result<(), AllocError>
    ensures { OnOk result (Adds how.reason entries.old (subject_at_one site (of_formula false (formula_view formula.now))) entries.new) }
{
    if has_parts(formula) {
        keep_part(entries, how, site, Part::Whole)?;
    }
    Ok(())
}

fn has_parts(formula: &Formula) -> bool
    ensures { result ≡ has_parts (formula_view formula.now).parts }
{
    !formula.parts.is_empty()
}

fn keep_part(entries: &mut Items<Kept>, how: How, site: Site, part: Part) -> Result<(), AllocError>
    ensures { OnOk result (entries.new ≡ entries.old ++ map (with_reason how.reason) (free_entry site part)) }
{
    entries.push(Kept {
        site,
        decisions: Items::new(how.alloc),
        part,
        reason: how.reason,
    })
}
