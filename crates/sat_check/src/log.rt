//! Logs: clauses that follow, with the hints that show it.
ghost use Rattle.std.specs.Prelude.{◌≡◌, [], ◌∷◌, ◌++◌, length, OnOk, OnErr, IsTrue, ◌↔◌};
ghost use Rattle.sat_check.specs.Logs.{EntriesAreBelow};

use crate::clause::Clause;
use std::alloc::{AllocError, Global};
use std::marker::Model;

/// The hints of an entry, which contracts see as a list.
///
/// A hint below the number of clauses names a clause, and that number plus i names entry i of
/// the log.
#[derive(Drop)]
pub struct Hints {
    hints: Vec<u32>,
}

impl Model for Hints {
    ghost use Rattle.std.specs.Prelude.{List, ℕ};

    ghost Value = { List ℕ };

    ghost view = { λ it. it.hints.items };
}

impl Hints {
    /// The hints of `hints`, in order.
    pub fn from_vec(hints: Vec<u32>) -> Hints
        ensures { result ≡ hints.items }
    {
        Hints { hints }
    }

    /// The hints as a `Vec`.
    pub fn into_vec(self) -> Vec<u32>
        ensures { result.items ≡ self }
    {
        self.hints
    }

    /// The hints, in order.
    pub fn as_slice(&self) -> &[u32]
        ensures { result.now ≡ self.now }
    {
        self.hints.as_slice()
    }
}

/// A clause of a log, and the hints by which it follows.
#[derive(Drop)]
pub struct Entry {
    pub clause: Clause,
    pub hints: Hints,
}

/// The entries of a log, which contracts see as a list.
#[derive(Drop)]
pub struct Entries {
    entries: Vec<Entry>,
}

impl Model for Entries {
    ghost use Rattle.std.specs.Prelude.{List};
    ghost use Rattle.sat_check.specs.declared.log.Entry.{Entry as OneEntry};

    ghost Value = { List OneEntry };

    ghost view = { λ it. it.entries.items };
}

impl Entries {
    /// No entry.
    pub fn new(alloc: Global) -> Entries
        ensures { result ≡ [] }
    {
        Entries {
            entries: Vec::new(alloc),
        }
    }

    /// The entries of `entries`, in order.
    pub fn from_vec(entries: Vec<Entry>) -> Entries
        ensures { result ≡ entries.items }
    {
        Entries { entries }
    }

    /// The entries as a `Vec`.
    pub fn into_vec(self) -> Vec<Entry>
        ensures { result.items ≡ self }
    {
        self.entries
    }

    /// Adds an entry at the end. Without memory nothing changes.
    pub fn push(&mut self, entry: Entry) -> Result<(), AllocError>
        ensures ok { OnOk result (self.new ≡ self.old ++ entry ∷ []) }
        ensures err { OnErr result (self.new ≡ self.old) }
    {
        self.entries.push(entry)?;
        Ok(())
    }

    /// The entries, in order.
    pub fn as_slice(&self) -> &[Entry]
        ensures { result.now ≡ self.now }
    {
        self.entries.as_slice()
    }

    /// How many entries there are.
    pub fn len(&self) -> usize
        ensures { result ≡ length self.now }
    {
        self.entries.len()
    }

    /// Whether there is no entry.
    pub fn is_empty(&self) -> bool
        ensures { IsTrue result ↔ (self.now ≡ []) }
    {
        self.entries.is_empty()
    }
}

/// A log: entries that follow, each from the clauses and the entries before it.
#[derive(Drop)]
pub struct Log {
    pub entries: Entries,
}

impl Log {
    /// Whether each variable of an entry's literal is below `variables`: the test for the
    /// condition of `check`.
    pub fn is_below(&self, variables: u32) -> bool
        ensures { IsTrue result ↔ EntriesAreBelow variables self.now.entries }
    {
        self.entries
            .as_slice()
            .iter()
            .all(|entry| entry.clause.is_below(variables))
    }
}
