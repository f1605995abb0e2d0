//! The files of the system, read whole up to a limit.
ghost use Rattle.std.specs.Prelude.{None, ◌≡◌, ◌≤◌};
ghost use Rattle.gc0_io.specs.Causes.{Rose};
ghost use Rattle.gc0_io.specs.Fetching.{FetchesAtMost};

use gc0_io::{Fetched, Files};
use sqlite_items::Items;
use std::alloc::Global;
use std::io::{ErrorKind, Read};
use std::rt;

// How many bytes one call reads at most.
const CHUNK: usize = 65_536;

/// The files of the system. What they hold is not told.
#[derive(Drop)]
pub struct RealFiles<'a, R: rt::Files> {
    rt: &'a R,
    faults: u64,
}

impl<'a, R: rt::Files> RealFiles<'a, R> {
    /// The files that this runtime may open.
    pub fn new(rt: &'a R) -> Self {
        RealFiles { rt, faults: 0 }
    }

    // Counts a fault.
    fn fail(&mut self) -> Fetched
        ensures failed { result ≡ Fetched.Failed }
        ensures later { self.old.faults ≤ self.new.faults }
        ensures rose { Rose self.old.faults self.new.faults }
    {
        self.faults = self.faults.saturating_add(1);
        Fetched::Failed
    }
}

impl<R: rt::Files> Files for RealFiles<'_, R> {
    ghost contents = { λ _. None };

    ghost faults = { λ s. s.faults };

    fn fetch(&mut self, alloc: Global, name: &str, most: usize) -> Fetched {
        match std::fs::open(self.rt, name) {
            Ok(mut file) => match read_whole(alloc, &mut file, most) {
                Fetched::Failed => self.fail(),
                fetched => fetched,
            },
            Err(e) => match e.kind() {
                ErrorKind::NotFound => Fetched::Absent,
                ErrorKind::OutOfMemory => Fetched::Memory,
                _ => self.fail(),
            },
        }
    }
}

// All that is left of a reader, where it is not more than `most` bytes. A call that was
// interrupted is made again.
fn read_whole<R: Read>(alloc: Global, file: &mut R, most: usize) -> Fetched
    ensures { FetchesAtMost most result }
{
    let mut bytes = Vec::new(alloc);
    let mut buf = [0u8; CHUNK];
    for _ in 0..u64::MAX {
        let count = match file.read(&mut buf) {
            Ok(count) => count,
            Err(e) if e.kind() == ErrorKind::Interrupted => continue,
            Err(_) => return Fetched::Failed,
        };
        if count == 0 {
            return Fetched::Found(Items::from_vec(bytes));
        }
        if count > most - bytes.len() {
            return Fetched::TooLong;
        }
        if bytes.extend_from_slice(&buf[..count]).is_err() {
            return Fetched::Memory;
        }
    }
    Fetched::Failed
}
