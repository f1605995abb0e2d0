//! Logs, as proofs in the LRAT format.
ghost use Rattle.std.specs.Prelude.{◌≡◌, ◌≤◌, ◌++◌, List, length, OnOk};
ghost use Rattle.std.specs.List.{flat_map};
ghost use Rattle.sat_check.specs.Logs.{IsRefutation};
ghost use Rattle.sat_check.specs.declared.clause.Clause.{Clause as OneClause};
ghost use Rattle.sat_text.specs.LogTexts.{lit_piece, hint_piece, entry_line, IsProof};

use crate::values::push_lit;
use itoa::Buffer;
use sat_check::{Entry, Lit};
use std::alloc::AllocError;

/// The line of an entry, at the end of a text: `id`, its literals and a 0, its hints and a 0.
/// A hint is the number of its clause, counted from 1.
pub fn push_entry(text: &mut Vec<u8>, id: u64, entry: &Entry) -> Result<(), AllocError>
    ensures { OnOk result (text.new.items ≡ text.old.items ++ entry_line id entry.now) }
{
    let mut buffer = Buffer::new();
    text.extend_from_slice(buffer.format(id).as_bytes())?;
    text.push(b' ')?;
    push_lits(text, entry.clause.lits.as_slice())?;
    text.extend_from_slice(b"0 ")?;
    push_hints(text, entry.hints.as_slice())?;
    text.extend_from_slice(b"0\n")?;
    Ok(())
}

fn push_lits(text: &mut Vec<u8>, lits: &[Lit]) -> Result<(), AllocError>
    ensures { OnOk result (text.new.items ≡ text.old.items ++ flat_map lit_piece lits.now) }
{
    for lit in lits {
        push_lit(text, *lit)?;
        text.push(b' ')?;
    }
    Ok(())
}

fn push_hints(text: &mut Vec<u8>, hints: &[u32]) -> Result<(), AllocError>
    ensures { OnOk result (text.new.items ≡ text.old.items ++ flat_map hint_piece hints.now) }
{
    let mut buffer = Buffer::new();
    for hint in hints {
        text.extend_from_slice(buffer.format(u64::from(*hint) + 1).as_bytes())?;
        text.push(b' ')?;
    }
    Ok(())
}

/// The entries up to the first that is empty, with it. Where the entries are a refutation, so
/// are these, and the last of them is the empty clause.
pub fn up_to_empty(entries: &[Entry]) -> &[Entry]
    ensures proof { (clauses : List OneClause) → IsRefutation clauses entries.now → IsProof clauses result.now }
    ensures shorter { length result.now ≤ length entries.now }
{
    for (index, entry) in entries.iter().enumerate() {
        if entry.clause.lits.is_empty() {
            return &entries[..index + 1];
        }
    }
    entries
}
