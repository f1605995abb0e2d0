//! The file for the proof.
ghost use Rattle.std.specs.Prelude.{◌≡◌, ℕ};
ghost use Rattle.gc0_io.specs.Causes.{HasCause};
ghost use Rattle.gc0_io.specs.Bytes.{TakesSome};
ghost use Rattle.sat_top.specs.Told.{Told, Makes, Adds, AddsAll};

use gc0_io::Failed;

/// A place where a file is made anew and written.
pub trait Target {
    /// The file that was made last, where it is told.
    ghost file: { Self → Told };

    /// How often a call has failed: a count that never falls, and stays at its type's end.
    ghost faults: { Self → ℕ };

    /// Makes an empty file of this name, in place of one that is there. What is written from then
    /// on goes to it.
    fn create(&mut self, name: &str) -> Result<(), Failed>
        ensures made { Makes (file self.old) (file self.new) result name.now }
        ensures cause { HasCause (faults self.old) (faults self.new) result };

    /// Writes a front of the piece at the end of the file, and says how many bytes were taken: at
    /// least one of a piece that has one. Where no file was made it fails.
    fn write(&mut self, piece: &[u8]) -> Result<usize, Failed>
        ensures some { TakesSome result piece.now }
        ensures bytes { Adds (file self.old) (file self.new) result piece.now }
        ensures cause { HasCause (faults self.old) (faults self.new) result };
}

/// Writes the whole piece, by as many calls of `write` as that takes. On an error a front of it
/// was taken. Takes no memory.
pub(crate) fn add_all<P: Target>(proof: &mut P, piece: &[u8]) -> Result<(), Failed>
    ensures bytes { AddsAll (P.file proof.old) (P.file proof.new) result piece.now }
    ensures cause { HasCause (P.faults proof.old) (P.faults proof.new) result }
{
    let mut at = 0;
    while at < piece.len() {
        at += proof.write(&piece[at..])?;
    }
    Ok(())
}
