//! What an engine answers to questions, which alter nothing.
ghost use Rattle.std.specs.Prelude.{◌≡◌, min};
ghost use Rattle.std.specs.List.{reduce, filter_map};
ghost use Rattle.machine.specs.State.{first_deadline, first_release, due};
ghost use Rattle.scheduler.specs.View.{table_of};
ghost use Rattle.scheduler.specs.Calls.{place_of, running_job};
ghost use Rattle.scheduler.specs.Parts.{state_in};

use super::Engine;
use crate::question::{Counts, Place, Running};
use queue::{Queue, Released, Waiting};

/// The soonest of some instants, where none is later than any.
fn soonest(instants: &[Option<u64>]) -> Option<u64>
    ensures { result ≡ reduce min (filter_map (λ instant. instant) instants.now) }
{
    instants.iter().filter_map(|instant| *instant).min()
}

impl<W: Queue<Entry = Waiting>, R: Queue<Entry = Released>> Engine<W, R> {
    /// The instant that the clock shows.
    pub(crate) fn clock(&self) -> u64
        ensures { result ≡ self.now.inner.clock }
    {
        let inner = &self.inner;
        inner.clock
    }

    /// The absolute deadline of the first released job.
    fn first_deadline(&self) -> Option<u64>
        ensures { result ≡ first_deadline (R.list self.now.released) }
    {
        self.released.first().map(|e| e.deadline)
    }

    /// The first release of a waiting task.
    fn first_release(&self) -> Option<u64>
        ensures { result ≡ first_release (W.list self.now.waiting) }
    {
        self.waiting.first().map(|w| w.release)
    }

    /// The instant by which the next advance has to come.
    pub(crate) fn due(&self) -> Option<u64>
        ensures { result ≡ due (state_in W.Queue R.Queue self.now) }
    {
        soonest(&[
            self.inner.deadline(),
            self.first_deadline(),
            self.first_release(),
        ])
    }

    /// Where a task is, as it is noted; none for a number outside the table.
    pub(crate) fn place(&self, task: usize) -> Option<Place>
        ensures { result ≡ place_of (state_in W.Queue R.Queue self.now) task }
    {
        if task >= self.records.tasks.len() {
            return None;
        }
        let inner = &self.inner;
        Some(Place::from(inner.spots[task]))
    }

    /// The running task with its deadlines.
    pub(crate) fn running(&self) -> Option<Running>
        ensures { result ≡ running_job (table_of self.now.records) (state_in W.Queue R.Queue self.now).stack }
    {
        let job = self.inner.top()?;
        Some(Running {
            task: job.task,
            deadline: job.deadline,
            inherited: self.records.inherited(job),
        })
    }

    /// What was counted.
    pub(crate) fn counts(&self) -> Counts
        ensures { result ≡ self.now.inner.counts }
    {
        let inner = &self.inner;
        inner.counts
    }
}
