//! How much each entry was used for what was learned lately. Nobody relies on it.
use std::alloc::{AllocError, Global};

/// For each entry what it counts for.
#[derive(Drop)]
pub(crate) struct Uses {
    counts: Vec<u64>,
    increment: u64,
}

// At this count all are made smaller, in proportion.
const LIMIT: u64 = 1 << 60;

const SMALLER: u32 = 30;

impl Uses {
    /// No entry was used.
    pub(crate) fn new(alloc: Global) -> Uses {
        Uses {
            counts: Vec::new(alloc),
            increment: 1 << 20,
        }
    }

    /// What an entry counts for.
    pub(crate) fn of(&self, entry: usize) -> u64 {
        match self.counts.get(entry) {
            Some(count) => *count,
            None => 0,
        }
    }

    /// An entry was used. It may be the next that is learned.
    pub(crate) fn bump(&mut self, entry: usize) -> Result<(), AllocError> {
        for _count in self.counts.len()..entry.saturating_add(1) {
            self.counts.push(0)?;
        }
        if let Some(count) = self.counts.get_mut(entry) {
            *count = count.saturating_add(self.increment);
            if *count > LIMIT {
                self.scale();
            }
        }
        Ok(())
    }

    /// What was used before counts for less from now on.
    pub(crate) fn decay(&mut self) {
        self.increment = self.increment.saturating_add(self.increment / 1024);
    }

    fn scale(&mut self) {
        for count in self.counts.iter_mut() {
            *count >>= SMALLER;
        }
        self.increment >>= SMALLER;
        if self.increment == 0 {
            self.increment = 1;
        }
    }
}
