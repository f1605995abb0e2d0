//! The file for the proof, behind the trait of `sat_top`.
ghost use Rattle.std.specs.Prelude.{None, IfSome, length, ◌≡◌, ◌≤◌, ◌<◌};

use gc0_io::Failed;
use sat_top::Target;
use std::io::Write;
use std::rt;

/// The file for the proof. What it takes is not told. A file that takes nothing of a piece counts
/// a fault.
#[derive(Drop)]
pub struct RealTarget<'a, R: rt::Files> {
    rt: &'a R,
    file: Option<R::File>,
    faults: u64,
}

impl<'a, R: rt::Files> RealTarget<'a, R> {
    /// No file was made yet.
    pub fn new(rt: &'a R) -> Self {
        RealTarget {
            rt,
            file: None,
            faults: 0,
        }
    }
}

impl<R: rt::Files> Target for RealTarget<'_, R> {
    ghost file = { λ _. None };

    ghost faults = { λ s. s.faults };

    fn create(&mut self, name: &str) -> Result<(), Failed> {
        match std::fs::create(self.rt, name) {
            Ok(file) => {
                self.file = Some(file);
                Ok(())
            }
            Err(_) => {
                self.faults = self.faults.saturating_add(1);
                Err(Failed)
            }
        }
    }

    fn write(&mut self, piece: &[u8]) -> Result<usize, Failed> {
        match written(&mut self.file, piece) {
            Some(count) => Ok(count),
            None => {
                self.faults = self.faults.saturating_add(1);
                Err(Failed)
            }
        }
    }
}

// How many bytes of a piece the file took, if there is one and it didn't fail.
fn written<W: Write>(file: &mut Option<W>, piece: &[u8]) -> Option<usize>
    ensures { IfSome result (λ count. (count ≤ length piece.now) × (0 < length piece.now → 0 < count)) }
{
    let Some(file) = file else {
        return None;
    };
    match file.write(piece) {
        Ok(count) if count > 0 || piece.is_empty() => Some(count),
        _ => None,
    }
}
