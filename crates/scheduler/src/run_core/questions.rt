//! The questions, which alter nothing.
ghost use Rattle.std.specs.Prelude.{◌≡◌, true, false, MatchResult};
ghost use Rattle.machine.specs.State.{due};
ghost use Rattle.scheduler.specs.declared.answer.Refusal.TheVariants.{Shut};
ghost use Rattle.scheduler.specs.View.{table_of};
ghost use Rattle.scheduler.specs.Parts.{view, whole};
ghost use Rattle.scheduler.specs.Calls.{asked, place_of, running_job, tallied};

use super::{Core, State};
use crate::answer::Refusal;
use crate::engine::Engine;
use crate::question::{Counts, Place, Running};
use queue::{Queue, Released, Waiting};

impl<W: Queue<Entry = Waiting>, R: Queue<Entry = Released>> Core<W, R> {
    /// The engine of a core that runs.
    fn engine(&self) -> Result<&Engine<W, R>, Refusal>
        ensures { MatchResult result (λ e. self.now ≡ whole true e.now) (λ r. (self.now.live ≡ false) × (r ≡ Shut)) }
    {
        match &self.state {
            State::Live(engine) => Ok(engine),
            State::Shut(_) => Err(Refusal::Shut),
        }
    }

    /// The instant that the clock shows.
    pub fn clock(&self) -> Result<u64, Refusal>
        ensures { result ≡ asked self.now.live (view W.Queue R.Queue self.now).clock }
    {
        Ok(self.engine()?.clock())
    }

    /// The instant by which the next advance has to come: the least of the running task's absolute deadline, the first released one's, and the first
    /// waiting release.
    pub fn due(&self) -> Result<Option<u64>, Refusal>
        ensures { result ≡ asked self.now.live (due (view W.Queue R.Queue self.now)) }
    {
        Ok(self.engine()?.due())
    }

    /// Where a task is; none for a number outside the table.
    pub fn place(&self, task: usize) -> Result<Option<Place>, Refusal>
        ensures { result ≡ asked self.now.live (place_of (view W.Queue R.Queue self.now) task) }
    {
        Ok(self.engine()?.place(task))
    }

    /// The running task with its absolute and its inherited deadline; none where none runs.
    pub fn running(&self) -> Result<Option<Running>, Refusal>
        ensures { result ≡ asked self.now.live (running_job (table_of self.now.records) (view W.Queue R.Queue self.now).stack) }
    {
        Ok(self.engine()?.running())
    }

    /// What was counted.
    pub fn counts(&self) -> Result<Counts, Refusal>
        ensures { tallied result ≡ asked self.now.live (view W.Queue R.Queue self.now).counts }
    {
        Ok(self.engine()?.counts())
    }
}
