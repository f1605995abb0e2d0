//! The call, from its words to its end.
ghost use Rattle.std.specs.Prelude.{◌≡◌, ◌≤◌, ◌⊎◌, [], map, string_bytes, IfOk, IfErr};
ghost use Rattle.gc0_io.specs.Causes.{Rose};
ghost use Rattle.sat_check.specs.Clauses.{ClausesAreBelow};
ghost use Rattle.sat_top.specs.Requests.{asked_of};
ghost use Rattle.sat_top.specs.Lines.{absent_line, bad_line};
ghost use Rattle.sat_top.specs.Outcomes.{Answered, IsRight, IsComplete, Ends, Says};

use crate::answers::{say, say_text};
use crate::limits::Limits;
use crate::request::{Request, request_of};
use crate::search::search_formula;
use crate::status::Status;
use crate::target::Target;
use gc0_io::{Fetched, Files, Sink};
use sat_text::{TextFault, one_formula, read};
use std::alloc::{AllocError, Global};

const USAGE: &[u8] = b"usage: sat_cli [--conflicts N] CNF [PROOF]\n";

/// Does what the words after the program's name ask for, and answers how it ended.
///
/// `[--conflicts N] CNF [PROOF]` reads the file CNF, a formula in the DIMACS CNF format, and
/// searches for an assignment that satisfies it, or for a proof that there is none, for which it
/// learns at most N clauses. The answer goes to `out` in the form of the SAT competitions; where
/// there is no assignment and PROOF is named, the file of that name is made anew and takes the
/// proof in the LRAT format before the answer is written. `err` takes one line where there is no
/// answer.
pub fn solve<F: Files, P: Target, O: Sink, E: Sink>(
    alloc: Global,
    words: &[String],
    files: &mut F,
    proof: &mut P,
    out: &mut O,
    err: &mut E,
) -> Status
    // Each answer has its cause, and what was written is what belongs to it.
    ensures answer { Answered (record {
      words = map string_bytes words.now;
      files = F.contents files.old;
      read_before = F.faults files.old;
      read_after = F.faults files.new;
      outputs = record { out_before = O.faults out.old; out_after = O.faults out.new; err_before = E.faults err.old; err_after = E.faults err.new; proof_before = P.faults proof.old; proof_after = P.faults proof.new; out_old = O.taken out.old; out_new = O.taken out.new; err_old = E.taken err.old; err_new = E.taken err.new; file_old = P.file proof.old; file_new = P.file proof.new };
    }) result }
    // Each answer is right for the formula that the file says.
    ensures right { IsRight (record {
      words = map string_bytes words.now;
      files = F.contents files.old;
      read_before = F.faults files.old;
      read_after = F.faults files.new;
      outputs = record { out_before = O.faults out.old; out_after = O.faults out.new; err_before = E.faults err.old; err_after = E.faults err.new; proof_before = P.faults proof.old; proof_after = P.faults proof.new; out_old = O.taken out.old; out_new = O.taken out.new; err_old = E.taken err.old; err_new = E.taken err.new; file_old = P.file proof.old; file_new = P.file proof.new };
    }) result }
    // Where no device fails, a file of the format is answered, unless memory runs out.
    ensures complete { IsComplete (record {
      words = map string_bytes words.now;
      files = F.contents files.old;
      read_before = F.faults files.old;
      read_after = F.faults files.new;
      outputs = record { out_before = O.faults out.old; out_after = O.faults out.new; err_before = E.faults err.old; err_after = E.faults err.new; proof_before = P.faults proof.old; proof_after = P.faults proof.new; out_old = O.taken out.old; out_new = O.taken out.new; err_old = E.taken err.old; err_new = E.taken err.new; file_old = P.file proof.old; file_new = P.file proof.new };
    }) result }
    ensures reads_later { F.faults files.old ≤ F.faults files.new }
    ensures proof_later { P.faults proof.old ≤ P.faults proof.new }
    ensures out_later { O.faults out.old ≤ O.faults out.new }
    ensures err_later { E.faults err.old ≤ E.faults err.new }
{
    one_formula();
    serve(alloc, words, files, proof, out, err)
}

// What is asked for, and how it ended.
fn serve<F: Files, P: Target, O: Sink, E: Sink>(
    alloc: Global,
    words: &[String],
    files: &mut F,
    proof: &mut P,
    out: &mut O,
    err: &mut E,
) -> Status
    ensures answer { Answered (record {
      words = map string_bytes words.now;
      files = F.contents files.old;
      read_before = F.faults files.old;
      read_after = F.faults files.new;
      outputs = record { out_before = O.faults out.old; out_after = O.faults out.new; err_before = E.faults err.old; err_after = E.faults err.new; proof_before = P.faults proof.old; proof_after = P.faults proof.new; out_old = O.taken out.old; out_new = O.taken out.new; err_old = E.taken err.old; err_new = E.taken err.new; file_old = P.file proof.old; file_new = P.file proof.new };
    }) result }
    ensures reads_later { F.faults files.old ≤ F.faults files.new }
    ensures proof_later { P.faults proof.old ≤ P.faults proof.new }
    ensures out_later { O.faults out.old ≤ O.faults out.new }
    ensures err_later { E.faults err.old ≤ E.faults err.new }
{
    let Some(request) = request_of(words) else {
        return say(err, USAGE, Status::Usage);
    };
    let text = match files.fetch(alloc, request.formula, Limits::BYTES) {
        Fetched::Found(text) => text,
        Fetched::TooLong => return say(err, b"limit file\n", Status::Limit),
        Fetched::Absent => return say_text(
            err,
            absent_text(alloc, request.formula),
            Status::Absent,
        ),
        Fetched::Failed => return say(err, b"read fault\n", Status::ReadFault),
        Fetched::Memory => return say(err, b"memory\n", Status::Memory),
    };
    let formula = match read(alloc, text.as_slice()) {
        Ok(formula) => formula,
        Err(TextFault::BadLine(line)) => {
            return say_text(err, bad_line_text(alloc, line), Status::BadLine);
        }
        Err(TextFault::Memory) => return say(err, b"memory\n", Status::Memory),
    };
    search_formula(alloc, &formula, request, proof, out, err)
}

// The line of a file that is not there.
fn absent_text(alloc: Global, name: &str) -> Result<Vec<u8>, AllocError>
    ensures { IfOk result (λ line. line.items ≡ absent_line name.now) }
{
    Ok(format!(in alloc; "absent {name}\n")?.into_bytes())
}

// The line that tells which line of the file is none of the format.
fn bad_line_text(alloc: Global, line: usize) -> Result<Vec<u8>, AllocError>
    ensures { IfOk result (λ text. text.items ≡ bad_line line) }
{
    Ok(format!(in alloc; "bad line {line}\n")?.into_bytes())
}
