//! A file for the proof, in memory.
ghost use Rattle.std.specs.Prelude.{Some, ◌≡◌, ◌∷◌, ◌++◌};
ghost use Rattle.sat_top.specs.Told.{made_of};

use gc0_io::Failed;
use sat_top::Target;
use std::alloc::Global;

/// The file that was made last. Where it is to fail, each write does.
#[derive(Drop)]
pub struct MemTarget {
    alloc: Global,
    made: bool,
    name: Vec<u8>,
    bytes: Vec<u8>,
    failing: bool,
    faults: u64,
}

impl MemTarget {
    /// No file was made yet.
    pub fn new(alloc: Global, failing: bool) -> MemTarget {
        MemTarget {
            alloc,
            made: false,
            name: Vec::new(alloc),
            bytes: Vec::new(alloc),
            failing,
            faults: 0,
        }
    }

    /// The bytes that the file took.
    pub fn bytes(&self) -> &[u8]
        ensures { result.now ≡ self.now.bytes.items }
    {
        self.bytes.as_slice()
    }
}

impl Target for MemTarget {
    ghost file = { λ t. Some (made_of t.made t.name.items t.bytes.items) };

    ghost faults = { λ t. t.faults };

    fn create(&mut self, name: &str) -> Result<(), Failed> {
        let Ok(copy) = Vec::from_slice(self.alloc, name.as_bytes()) else {
            self.faults = self.faults.saturating_add(1);
            return Err(Failed);
        };
        self.made = true;
        self.name = copy;
        self.bytes.clear();
        Ok(())
    }

    fn write(&mut self, piece: &[u8]) -> Result<usize, Failed> {
        if !self.made || self.failing || self.bytes.extend_from_slice(piece).is_err() {
            self.faults = self.faults.saturating_add(1);
            return Err(Failed);
        }
        Ok(piece.len())
    }
}
