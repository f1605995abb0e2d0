//! The outside as traits: files by name, bytes to read, a place to write bytes to.
ghost use Rattle.std.specs.Prelude.{◌≡◌, ◌≤◌, ℕ, List, Option, length, IfOk, IfSome};
ghost use Rattle.gc0_io.specs.Causes.{HasCause};
ghost use Rattle.gc0_io.specs.Bytes.{Takes, TakesSome, TakesAll, Gives};
ghost use Rattle.gc0_io.specs.Fetching.{Contents, FetchCause, FetchesAtMost, Fetches};

use sqlite_items::Items;
use std::alloc::Global;

/// A call of the outside failed.
#[derive(Clone, Copy, Debug, PartialEq, Eq)]
pub struct Failed;

/// The answer of a fetch.
#[derive(Debug, Drop)]
pub enum Fetched {
    /// The whole file.
    Found(Items<u8>),
    /// The file has more bytes than were asked for.
    TooLong,
    /// There is no such file.
    Absent,
    /// The files failed.
    Failed,
    /// There was no memory for the file.
    Memory,
}

/// Files by name.
pub trait Files {
    /// The content of each file by its name, where it is told.
    ghost contents: { Self → Option (List ℕ → Option (List ℕ)) };

    /// How often a call has failed: a count that never falls, and stays at its type's end.
    ghost faults: { Self → ℕ };

    /// The whole content of the file of this name, where it has at most `most` bytes.
    /// A fetch leaves the files as they were.
    fn fetch(&mut self, alloc: Global, name: &str, most: usize) -> Fetched
        ensures later { faults self.old ≤ faults self.new }
        ensures cause { FetchCause (faults self.old) (faults self.new) result }
        ensures most { FetchesAtMost most result }
        ensures told { IfSome (contents self.old) (λ files. Fetches (files name.now) most result) }
        ensures kept { contents self.new ≡ contents self.old };
}

/// Bytes to read.
pub trait Source {
    /// The bytes that are left, where they are told.
    ghost left: { Self → Option (List ℕ) };

    /// How often a call has failed.
    ghost faults: { Self → ℕ };

    /// Reads the next bytes into the front of the buffer, and says how many. For a buffer
    /// with room the count is 0 exactly at the end.
    fn read(&mut self, buf: &mut [u8]) -> Result<usize, Failed>
        ensures bound { IfOk result (λ k. k ≤ length buf.new) }
        ensures bytes { Gives (left self.old) (left self.new) result buf.new }
        ensures cause { HasCause (faults self.old) (faults self.new) result };
}

/// A place to write bytes to.
pub trait Sink {
    /// The bytes that were taken, where they are told.
    ghost taken: { Self → Option (List ℕ) };

    /// How often a call has failed.
    ghost faults: { Self → ℕ };

    /// Writes a front of the piece, and says how many bytes were taken: at least one of a
    /// piece that has one. A sink that takes nothing counts a fault.
    fn write(&mut self, piece: &[u8]) -> Result<usize, Failed>
        ensures some { TakesSome result piece.now }
        ensures bytes { Takes (taken self.old) (taken self.new) result piece.now }
        ensures cause { HasCause (faults self.old) (faults self.new) result };
}

/// Writes the whole piece, by as many calls of `write` as that takes. On an error a front of
/// it was taken. Takes no memory.
pub fn write_all<O: Sink>(out: &mut O, piece: &[u8]) -> Result<(), Failed>
    ensures bytes { TakesAll (O.taken out.old) (O.taken out.new) result piece.now }
    ensures cause { HasCause (O.faults out.old) (O.faults out.new) result }
{
    let mut at = 0;
    while at < piece.len() {
        at += out.write(&piece[at..])?;
    }
    Ok(())
}
