//! The engine: what a core that runs is made of, and its steps.

use crate::records::Records;
use crate::stack::Inner;
use queue::{Queue, Released, Waiting};
use std::marker::Model;

mod advance;
mod enter;
mod events;
mod finish;
mod leave;
mod questions;
mod select;

/// Copies of the records, what else is kept, and two queues whose lists fit it.
///
/// That they fit is part of the type, so no call asks for it.
#[derive(Drop)]
pub struct Engine<W: Queue<Entry = Waiting>, R: Queue<Entry = Released>> {
    pub(crate) records: Records,
    pub(crate) inner: Inner,
    pub(crate) waiting: W,
    pub(crate) released: R,
}

impl<W: Queue<Entry = Waiting>, R: Queue<Entry = Released>> Model for Engine<W, R> {
    ghost use Rattle.scheduler.specs.Parts.{Parts};

    ghost Value = { Parts W R };

    ghost use Rattle.scheduler.specs.Fitted.{Fitted};

    ghost view = { λ e. record { records = e.records; inner = e.inner; waiting = e.waiting; released = e.released } };

    ghost invariant = { λ e. Fitted W.Queue R.Queue e.records e.inner e.waiting e.released };
}

impl<W: Queue<Entry = Waiting>, R: Queue<Entry = Released>> Engine<W, R> {
    ghost use Rattle.scheduler.specs.Fitted.{Fitted};

    /// What the type holds, said of the parts that contracts see.
    pub(crate) fn holds(&self)
        ensures { Fitted W.Queue R.Queue self.now.records self.now.inner self.now.waiting self.now.released }
    {
        let _ = &self.records;
    }
}
