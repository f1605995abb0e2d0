//! A log, written to the file for the proof.
ghost use Rattle.std.specs.Prelude.{◌≡◌, ◌+◌, ◌^◌, ◌<◌, ◌≤◌, ◌++◌, List, ℕ, length, OnOk, OnErr, IfErr};
ghost use Rattle.gc0_io.specs.Causes.{Rose, HasCause};
ghost use Rattle.sat_text.specs.LogTexts.{entry_line, log_lines};
ghost use Rattle.sat_top.specs.Told.{Told, AddsFront, IsWritten, with_bytes};

use crate::target::{Target, add_all};
use gc0_io::Failed;
use sat_check::Entry;
use sat_text::push_entry;
use std::alloc::{AllocError, Global};

/// How many bytes are gathered before they are written.
const PIECE: usize = 65536;

/// Why a log was not written.
#[derive(Clone, Copy, Debug, PartialEq, Eq)]
pub(crate) enum LogFault {
    /// The file failed.
    Write,
    /// There was not memory enough.
    Memory,
}

impl From<AllocError> for LogFault {
    ghost use Rattle.std.specs.Prelude.{◌≡◌};
    ghost use Rattle.sat_top.specs.declared.log_file.LogFault.TheVariants.{Memory};

    ghost from_gives = { λ _ e. e ≡ Memory };

    fn from(_: AllocError) -> LogFault {
        LogFault::Memory
    }
}

impl From<Failed> for LogFault {
    ghost use Rattle.std.specs.Prelude.{◌≡◌};
    ghost use Rattle.sat_top.specs.declared.log_file.LogFault.TheVariants.{Write};

    ghost from_gives = { λ _ e. e ≡ Write };

    fn from(_: Failed) -> LogFault {
        LogFault::Write
    }
}

/// Writes the lines of entries, of which the first has the number `first`, at the end of the
/// file. On an error a front of them was taken.
pub(crate) fn write_log<P: Target>(
    alloc: Global,
    proof: &mut P,
    first: u64,
    entries: &[Entry],
) -> Result<(), LogFault>
    requires { first + length entries.now < 2 ^ 64 }
    ensures ok { OnOk result (P.file proof.new ≡ with_bytes (P.file proof.old) (log_lines first entries.now)) }
    ensures front { OnErr result (AddsFront (P.file proof.old) (P.file proof.new) (log_lines first entries.now)) }
    ensures cause { IfErr result (λ e. e ≡ LogFault.Write → Rose (P.faults proof.old) (P.faults proof.new)) }
    ensures later { P.faults proof.old ≤ P.faults proof.new }
{
    let mut piece = Vec::new(alloc);
    for (index, entry) in entries.iter().enumerate() {
        add_entry(proof, &mut piece, first + index as u64, entry)?;
    }
    add_all(proof, &piece)?;
    Ok(())
}

// One more line, behind those that are held back.
fn add_entry<P: Target>(
    proof: &mut P,
    piece: &mut Vec<u8>,
    id: u64,
    entry: &Entry,
) -> Result<(), LogFault>
    ensures ok { (before : Told) (lines : List ℕ) → IsWritten before (P.file proof.old) piece.old.items lines → OnOk result (IsWritten before (P.file proof.new) piece.new.items (lines ++ entry_line id entry.now)) }
    ensures front { (before : Told) (lines : List ℕ) → IsWritten before (P.file proof.old) piece.old.items lines → OnErr result (AddsFront before (P.file proof.new) (lines ++ entry_line id entry.now)) }
    ensures cause { IfErr result (λ e. e ≡ LogFault.Write → Rose (P.faults proof.old) (P.faults proof.new)) }
    ensures later { P.faults proof.old ≤ P.faults proof.new }
{
    push_entry(piece, id, entry)?;
    flush(proof, piece)?;
    Ok(())
}

// Writes what is held back, once it is enough.
fn flush<P: Target>(proof: &mut P, piece: &mut Vec<u8>) -> Result<(), Failed>
    ensures ok { (before : Told) (lines : List ℕ) → IsWritten before (P.file proof.old) piece.old.items lines → OnOk result (IsWritten before (P.file proof.new) piece.new.items lines) }
    ensures front { (before : Told) (lines : List ℕ) → IsWritten before (P.file proof.old) piece.old.items lines → OnErr result (AddsFront before (P.file proof.new) lines) }
    ensures cause { HasCause (P.faults proof.old) (P.faults proof.new) result }
{
    if piece.len() < PIECE {
        return Ok(());
    }
    add_all(proof, piece)?;
    piece.clear();
    Ok(())
}
