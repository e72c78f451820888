//! The core: an engine that runs, or queues that cannot serve the table, and the four calls.
ghost use Rattle.std.specs.Prelude.{◌≡◌, true, false, IfErr};
ghost use Rattle.admission.specs.Sound.{sound};
ghost use Rattle.queue.specs.Entries.{waiting_order, released_order};
ghost use Rattle.machine.specs.declared.call.Call.TheVariants.{Advance, Enter, Leave, Finish};
ghost use Rattle.scheduler.specs.View.{table_of};
ghost use Rattle.scheduler.specs.Moves.{fresh};
ghost use Rattle.scheduler.specs.Fitted.{Fitted};
ghost use Rattle.scheduler.specs.Parts.{view};
ghost use Rattle.scheduler.specs.Calls.{answer_of, state_after, of_advance, of_enter, of_leave, of_finish, HandsBack};

use crate::answer::Refusal;
use crate::engine::Engine;
use crate::grant::{Grant, LeaveRefusal};
use crate::idle::Idle;
use queue::{Queue, Released, Waiting};
use std::marker::Model;

mod make;
mod questions;

/// Whether a core runs.
#[derive(Drop)]
enum State<W: Queue<Entry = Waiting>, R: Queue<Entry = Released>> {
    Live(Engine<W, R>),
    Shut(Idle<W, R>),
}

/// Runs an admitted table, event by event, over a queue of waiting and a queue of released tasks.
///
/// A core in which the queues could not serve the table is shut: it keeps them as they were, and refuses every call and question.
#[derive(Drop)]
pub struct Core<W: Queue<Entry = Waiting>, R: Queue<Entry = Released>> {
    state: State<W, R>,
}

impl<W: Queue<Entry = Waiting>, R: Queue<Entry = Released>> Model for Core<W, R> {
    ghost use Rattle.scheduler.specs.Parts.{Whole};

    ghost Value = { Whole W R };

    ghost use Rattle.scheduler.specs.Whole.{whole_of};

    ghost view = { λ c. whole_of c.state };
}

impl<W: Queue<Entry = Waiting>, R: Queue<Entry = Released>> Core<W, R> {
    /// What is true of every core at any time, since its type holds it. The function does nothing; its contract says it.
    pub fn holds(&self)
        ensures sound { sound (table_of self.now.records).tasks (table_of self.now.records).sections ≡ true }
        ensures ordered { W.ordered waiting_order self.now.waiting × R.ordered released_order self.now.released }
        ensures live { self.now.live ≡ true → Fitted W.Queue R.Queue self.now.records self.now.inner self.now.waiting self.now.released }
        ensures shut { self.now.live ≡ false → self.now.inner ≡ fresh }
    {
        match &self.state {
            State::Live(engine) => engine.holds(),
            State::Shut(idle) => idle.holds(),
        }
    }

    /// The clock goes on to t: the running job and then released jobs end whose deadline is t, tasks are released whose release is t, and selection
    /// follows. Answers how many jobs ended so, how many tasks were released, and the running task, or 32 for none.
    pub fn advance(&mut self, t: u64) -> Result<(u32, u32, u32), Refusal>
        ensures live { self.new.live ≡ self.old.live }
        ensures table { self.new.records ≡ self.old.records }
        ensures shut { self.old.live ≡ false → self.new ≡ self.old }
        ensures refused { IfErr result (λ r. self.new ≡ self.old) }
        ensures value { of_advance result ≡ answer_of self.old.live (table_of self.old.records) (Advance t) (view W.Queue R.Queue self.old) }
        ensures after { view W.Queue R.Queue self.new ≡ state_after self.old.live (table_of self.old.records) (Advance t) (view W.Queue R.Queue self.old) }
    {
        match &mut self.state {
            State::Live(engine) => Ok(engine.advance(t)?),
            State::Shut(_) => Err(Refusal::Shut),
        }
    }

    /// The running job enters a section that is open to entry, and is granted it.
    pub fn enter(&mut self, section: usize) -> Result<Grant, Refusal>
        ensures live { self.new.live ≡ self.old.live }
        ensures table { self.new.records ≡ self.old.records }
        ensures shut { self.old.live ≡ false → self.new ≡ self.old }
        ensures refused { IfErr result (λ r. self.new ≡ self.old) }
        ensures value { of_enter result ≡ answer_of self.old.live (table_of self.old.records) (Enter section) (view W.Queue R.Queue self.old) }
        ensures after { view W.Queue R.Queue self.new ≡ state_after self.old.live (table_of self.old.records) (Enter section) (view W.Queue R.Queue self.old) }
    {
        match &mut self.state {
            State::Live(engine) => Ok(engine.enter(section)?),
            State::Shut(_) => Err(Refusal::Shut),
        }
    }

    /// The running job leaves its innermost section, which the grant has to be of; selection follows. Answers the running task, or 32 for none.
    ///
    /// A grant that is not taken is handed back; one whose section is not open any more is taken, and the answer says so.
    pub fn leave(&mut self, grant: Grant) -> Result<u32, LeaveRefusal>
        ensures live { self.new.live ≡ self.old.live }
        ensures table { self.new.records ≡ self.old.records }
        ensures shut { self.old.live ≡ false → self.new ≡ self.old }
        ensures refused { IfErr result (λ r. self.new ≡ self.old) }
        ensures value { of_leave result ≡ answer_of self.old.live (table_of self.old.records) (Leave grant.ticket) (view W.Queue R.Queue self.old) }
        ensures back { HandsBack grant result }
        ensures after { view W.Queue R.Queue self.new ≡ state_after self.old.live (table_of self.old.records) (Leave grant.ticket) (view W.Queue R.Queue self.old) }
    {
        match &mut self.state {
            State::Live(engine) => engine.leave(grant),
            State::Shut(_) => Err(LeaveRefusal::Shut(grant)),
        }
    }

    /// The running job is done: its task waits for its next release, and selection follows. Answers the running task, or 32 for none.
    pub fn finish(&mut self) -> Result<u32, Refusal>
        ensures live { self.new.live ≡ self.old.live }
        ensures table { self.new.records ≡ self.old.records }
        ensures shut { self.old.live ≡ false → self.new ≡ self.old }
        ensures refused { IfErr result (λ r. self.new ≡ self.old) }
        ensures value { of_finish result ≡ answer_of self.old.live (table_of self.old.records) Finish (view W.Queue R.Queue self.old) }
        ensures after { view W.Queue R.Queue self.new ≡ state_after self.old.live (table_of self.old.records) Finish (view W.Queue R.Queue self.old) }
    {
        match &mut self.state {
            State::Live(engine) => Ok(engine.finish()?),
            State::Shut(_) => Err(Refusal::Shut),
        }
    }
}
