//! Lines and answers that are written, and the statuses that belong to them.
ghost use Rattle.std.specs.Prelude.{◌≡◌, ◌≤◌, ◌⊎◌, IfOk, IfErr};
ghost use Rattle.std.specs.Io.KnownBytes.{append_known};
ghost use Rattle.gc0_io.specs.Causes.{Rose};
ghost use Rattle.gc0_io.specs.Bytes.{TakesFront};
ghost use Rattle.sat_top.specs.Outcomes.{Says, Answers};

use crate::status::Status;
use gc0_io::{Sink, write_all};
use std::alloc::AllocError;

/// Writes a line, and answers with this status.
pub(crate) fn say<E: Sink>(err: &mut E, line: &[u8], status: Status) -> Status
    ensures said { Says (E.faults err.old) (E.faults err.new) (E.taken err.old) (E.taken err.new) line.now status result }
    ensures later { E.faults err.old ≤ E.faults err.new }
{
    match write_all(err, line) {
        Ok(()) => status,
        Err(_) => Status::WriteFault,
    }
}

/// Writes a line that was made, and answers with this status; the line of memory where it was
/// not.
pub(crate) fn say_text<E: Sink>(
    err: &mut E,
    line: Result<Vec<u8>, AllocError>,
    status: Status,
) -> Status
    ensures said { IfOk line (λ text. Says (E.faults err.old) (E.faults err.new) (E.taken err.old) (E.taken err.new) text.items status result) }
    ensures memory { IfErr line (λ _. (result ≡ Status.Memory) ⊎ ((result ≡ Status.WriteFault) × Rose (E.faults err.old) (E.faults err.new))) }
    ensures later { E.faults err.old ≤ E.faults err.new }
{
    match line {
        Ok(text) => say(err, &text, status),
        Err(_) => say(err, b"memory\n", Status::Memory),
    }
}

/// Writes an answer, and answers with this status.
pub(crate) fn answer<O: Sink, E: Sink>(
    out: &mut O,
    err: &mut E,
    text: &[u8],
    status: Status,
) -> Status
    ensures answers { Answers (O.faults out.old) (O.faults out.new) (O.taken out.old) (O.taken out.new) (E.taken err.old) (E.taken err.new) text.now status result }
    ensures out_later { O.faults out.old ≤ O.faults out.new }
    ensures err_later { E.faults err.old ≤ E.faults err.new }
{
    match write_all(out, text) {
        Ok(()) => status,
        Err(_) => say(err, b"write fault\n", Status::WriteFault),
    }
}
