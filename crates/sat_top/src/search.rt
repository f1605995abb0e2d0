//! The search for a formula, and the answer.
ghost use Rattle.std.specs.Prelude.{◌≡◌, ◌+◌, ◌≤◌, ◌<◌, ◌^◌, ◌⊎◌, length, option_map, IfOk, IfErr, OnOk, OnErr};
ghost use Rattle.gc0_io.specs.Causes.{Rose};
ghost use Rattle.sat_check.specs.Clauses.{ClausesAreBelow, IsUnsatisfiable};
ghost use Rattle.search_base.specs.Searches.{IsSolution, IsRefutationWithin};
ghost use Rattle.sat_text.specs.LogTexts.{log_lines};
ghost use Rattle.sat_top.specs.Told.{kept_as};
ghost use Rattle.sat_top.specs.Requests.{asked_of};
ghost use Rattle.sat_top.specs.Lines.{satisfiable_text};
ghost use Rattle.sat_top.specs.Outcomes.{Ends, IsFrontOf};

use crate::answers::{answer, say};
use crate::limits::Limits;
use crate::log_file::{LogFault, write_log};
use crate::request::Request;
use crate::status::Status;
use crate::target::Target;
use gc0_io::Sink;
use sat_check::{Entry, Log, refutation_is_sound};
use sat_search::search;
use sat_text::{Formula, FormulaLimits, up_to_empty, values_text};
use search_base::Found;
use std::alloc::{AllocError, Global};

/// Searches, and writes the answer.
pub(crate) fn search_formula<P: Target, O: Sink, E: Sink>(
    alloc: Global,
    formula: &Formula,
    request: Request<'_>,
    proof: &mut P,
    out: &mut O,
    err: &mut E,
) -> Status
    requires below { ClausesAreBelow formula.now.variables formula.now.clauses }
    requires few_clauses { length formula.now.clauses ≤ FormulaLimits.CLAUSES }
    requires few_variables { formula.now.variables ≤ FormulaLimits.VARIABLES }
    requires few_conflicts { request.conflicts ≤ Limits.CONFLICTS }
    ensures ends { Ends formula.now (asked_of request.entry) (record { out_before = O.faults out.old; out_after = O.faults out.new; err_before = E.faults err.old; err_after = E.faults err.new; proof_before = P.faults proof.old; proof_after = P.faults proof.new; out_old = O.taken out.old; out_new = O.taken out.new; err_old = E.taken err.old; err_new = E.taken err.new; file_old = P.file proof.old; file_new = P.file proof.new }) result }
    ensures proof_later { P.faults proof.old ≤ P.faults proof.new }
    ensures out_later { O.faults out.old ≤ O.faults out.new }
    ensures err_later { E.faults err.old ≤ E.faults err.new }
{
    let clauses = formula.clauses.as_slice();
    match search(alloc, formula.variables, clauses, request.conflicts) {
        Ok(Found::Assignment(values)) => {
            match satisfiable_text(alloc, values.as_slice()) {
                Ok(text) => answer(out, err, &text, Status::Satisfiable),
                Err(_) => say(err, b"memory\n", Status::Memory),
            }
        }
        Ok(Found::Refuted(log)) => say_refuted(alloc, formula, request, &log, proof, out, err),
        Ok(Found::Spent(_)) => answer(out, err, b"s UNKNOWN\n", Status::Unknown),
        Err(_) => say(err, b"memory\n", Status::Memory),
    }
}

// The text of an answer with values.
fn satisfiable_text(alloc: Global, values: &[bool]) -> Result<Vec<u8>, AllocError>
    requires { length values.now < 2 ^ 32 }
    ensures { IfOk result (λ text. text.items ≡ satisfiable_text values.now) }
{
    let lines = values_text(alloc, values)?;
    let mut text = Vec::from_slice(alloc, b"s SATISFIABLE\n")?;
    text.extend_from_slice(&lines)?;
    Ok(text)
}

// Writes the proof, where it is wanted, and the answer.
fn say_refuted<P: Target, O: Sink, E: Sink>(
    alloc: Global,
    formula: &Formula,
    request: Request<'_>,
    log: &Log,
    proof: &mut P,
    out: &mut O,
    err: &mut E,
) -> Status
    requires refuted { IsRefutationWithin formula.now.variables formula.now.clauses request.conflicts log.now.entries }
    requires few_clauses { length formula.now.clauses ≤ FormulaLimits.CLAUSES }
    requires few_conflicts { request.conflicts ≤ Limits.CONFLICTS }
    ensures ends { Ends formula.now (asked_of request.entry) (record { out_before = O.faults out.old; out_after = O.faults out.new; err_before = E.faults err.old; err_after = E.faults err.new; proof_before = P.faults proof.old; proof_after = P.faults proof.new; out_old = O.taken out.old; out_new = O.taken out.new; err_old = E.taken err.old; err_new = E.taken err.new; file_old = P.file proof.old; file_new = P.file proof.new }) result }
    ensures proof_later { P.faults proof.old ≤ P.faults proof.new }
    ensures out_later { O.faults out.old ≤ O.faults out.new }
    ensures err_later { E.faults err.old ≤ E.faults err.new }
{
    refutation_is_sound();
    let entries = up_to_empty(log.entries.as_slice());
    let first = formula.clauses.len() as u64 + 1;
    match keep_log(alloc, request.proof, first, entries, proof) {
        Ok(()) => answer(out, err, b"s UNSATISFIABLE\n", Status::Unsatisfiable),
        Err(LogFault::Write) => say(err, b"write fault\n", Status::WriteFault),
        Err(LogFault::Memory) => say(err, b"memory\n", Status::Memory),
    }
}

// Makes the file of this name with the lines of entries, where one is wanted.
fn keep_log<P: Target>(
    alloc: Global,
    name: Option<&str>,
    first: u64,
    entries: &[Entry],
    proof: &mut P,
) -> Result<(), LogFault>
    requires { first + length entries.now < 2 ^ 64 }
    ensures ok { OnOk result (P.file proof.new ≡ kept_as (P.file proof.old) (option_map (λ n. n.now) name.entry) (log_lines first entries.now)) }
    ensures front { OnErr result (IsFrontOf (P.file proof.old) (P.file proof.new) (option_map (λ n. n.now) name.entry) (log_lines first entries.now)) }
    ensures cause { IfErr result (λ e. e ≡ LogFault.Write → Rose (P.faults proof.old) (P.faults proof.new)) }
    ensures later { P.faults proof.old ≤ P.faults proof.new }
{
    match name {
        Some(name) => {
            proof.create(name)?;
            write_log(alloc, proof, first, entries)
        }
        None => Ok(()),
    }
}
