//! The streams of the system: a source that reads, and a sink that writes.
ghost use Rattle.std.specs.Prelude.{None, ◌≡◌, ◌≤◌};

use gc0_io::{Failed, Sink, Source};
use std::io::{Read, Write};

/// A reader of the system. What it has left is not told.
#[derive(Drop)]
pub struct Input<R: Read + Drop> {
    inner: R,
    faults: u64,
}

impl<R: Read + Drop> Input<R> {
    /// A source that reads from `inner`.
    pub fn new(inner: R) -> Self {
        Input { inner, faults: 0 }
    }
}

impl<R: Read + Drop> Source for Input<R> {
    ghost left = { λ _. None };

    ghost faults = { λ s. s.faults };

    fn read(&mut self, buf: &mut [u8]) -> Result<usize, Failed> {
        match self.inner.read(buf) {
            Ok(count) => Ok(count),
            Err(_) => {
                self.faults = self.faults.saturating_add(1);
                Err(Failed)
            }
        }
    }
}

/// A writer of the system. What it has taken is not told. A writer that takes nothing of a
/// piece counts a fault.
#[derive(Drop)]
pub struct Output<W: Write + Drop> {
    inner: W,
    faults: u64,
}

impl<W: Write + Drop> Output<W> {
    /// A sink that writes to `inner`, and holds nothing back.
    pub fn new(inner: W) -> Self {
        Output { inner, faults: 0 }
    }
}

impl<W: Write + Drop> Sink for Output<W> {
    ghost taken = { λ _. None };

    ghost faults = { λ s. s.faults };

    fn write(&mut self, piece: &[u8]) -> Result<usize, Failed> {
        match self.inner.write(piece) {
            Ok(count) if count > 0 || piece.is_empty() => Ok(count),
            _ => {
                self.faults = self.faults.saturating_add(1);
                Err(Failed)
            }
        }
    }
}
