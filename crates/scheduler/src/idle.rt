//! A core that does not run.
ghost use Rattle.std.specs.Prelude.{◌≡◌};

use crate::records::Records;
use queue::{Queue, Released, Waiting};
use std::marker::Model;

/// Copies of the records, and two queues that cannot serve them, as they were given.
#[derive(Drop)]
pub struct Idle<W: Queue<Entry = Waiting>, R: Queue<Entry = Released>> {
    pub(crate) records: Records,
    pub(crate) waiting: W,
    pub(crate) released: R,
}

impl<W: Queue<Entry = Waiting>, R: Queue<Entry = Released>> Model for Idle<W, R> {
    ghost use Rattle.queue.specs.Entries.{waiting_order, released_order};
    ghost use Rattle.scheduler.specs.Moves.{fresh};
    ghost use Rattle.scheduler.specs.Parts.{Parts};

    ghost Value = { Parts W R };

    ghost view = { λ i. record { records = i.records; inner = fresh; waiting = i.waiting; released = i.released } };

    ghost invariant = { λ i. W.ordered waiting_order i.waiting × R.ordered released_order i.released };
}

impl<W: Queue<Entry = Waiting>, R: Queue<Entry = Released>> Idle<W, R> {
    ghost use Rattle.queue.specs.Entries.{waiting_order, released_order};
    ghost use Rattle.scheduler.specs.Moves.{fresh};

    /// What the type holds, said of the parts that contracts see.
    pub(crate) fn holds(&self)
        ensures inner { self.now.inner ≡ fresh }
        ensures ordered { W.ordered waiting_order self.now.waiting × R.ordered released_order self.now.released }
    {
        let _ = &self.records;
    }
}
