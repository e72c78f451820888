//! The entry of a task that waits.
ghost use Rattle.queue.specs.Entries.{waiting_order};
ghost use Rattle.std.proofs.Common.{rules};

use super::QueueEntry;

/// A task that waits for its release. The order is that of the fields.
#[derive(Clone, Copy, Debug, PartialEq, Eq, PartialOrd, Ord)]
pub struct Waiting {
    pub release: u64,
    pub task: usize,
}

impl Waiting {
    /// What lent memory can hold before a queue writes in it.
    pub const EMPTY: Waiting = Waiting {
        release: 0,
        task: 0,
    };
}

impl QueueEntry for Waiting {
    ghost order = { waiting_order };

    ghost total = { Prim.search rules };

    fn is_before(self, other: Waiting) -> bool {
        self < other
    }

    fn task(self) -> usize {
        self.task
    }
}
