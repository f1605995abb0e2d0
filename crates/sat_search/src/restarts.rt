//! When a search takes back all its decisions: after so many conflicts as Luby's sequence says
//! (Luby, Sinclair and Zuckerman, "Optimal Speedup of Las Vegas Algorithms", 1993).

/// The conflicts since the last restart, and the place in the sequence.
#[derive(Drop)]
pub(crate) struct Restarts {
    conflicts: u64,
    round: u64,
    length: u64,
}

// The first length of the sequence.
const UNIT: u64 = 2048;

impl Restarts {
    pub(crate) fn new() -> Restarts {
        Restarts {
            conflicts: 0,
            round: 1,
            length: 1,
        }
    }

    /// One conflict more.
    pub(crate) fn count(&mut self) {
        self.conflicts = self.conflicts.saturating_add(1);
    }

    /// Whether there were so many conflicts as the sequence says.
    pub(crate) fn is_due(&self) -> bool {
        self.conflicts / UNIT >= self.length
    }

    /// The next in the sequence: 1, 1, 2, 1, 1, 2, 4, and so on.
    pub(crate) fn begin(&mut self) {
        self.conflicts = 0;
        if self.round & self.round.wrapping_neg() == self.length {
            self.round = self.round.wrapping_add(1);
            self.length = 1;
        } else {
            self.length = self.length.saturating_mul(2);
        }
    }
}
