//! Enter.
ghost use Rattle.std.specs.Prelude.{◌≡◌, IfErr, MatchResult, Some, None};
ghost use Rattle.machine.specs.declared.call.Call.TheVariants.{Enter};
ghost use Rattle.machine.specs.Step.{step};
ghost use Rattle.scheduler.specs.Calls.{of_enter};
ghost use Rattle.scheduler.specs.Moves.{enter_refusal, top_of};
ghost use Rattle.scheduler.specs.View.{table_of};
ghost use Rattle.scheduler.specs.Parts.{state_in};

use super::Engine;
use crate::grant::Grant;
use machine::call;
use machine::call::Ticket;
use queue::{Queue, Released, Waiting};

impl<W: Queue<Entry = Waiting>, R: Queue<Entry = Released>> Engine<W, R> {
    /// Refuses an entry, or answers the running task.
    fn check_entry(&self, section: usize) -> Result<usize, call::Refusal>
        ensures { MatchResult result (λ task. (enter_refusal self.now.records self.now.inner section ≡ None) × (task ≡ (top_of self.now.inner).task)) (λ r. enter_refusal self.now.records self.now.inner section ≡ Some r) }
    {
        let inner = &self.inner;
        let job = inner.top().ok_or(call::Refusal::NothingRuns)?;
        if !self.records.enterable(section, job) {
            return Err(call::Refusal::NotEnterable);
        }
        if inner.counts.entries == u32::MAX {
            return Err(call::Refusal::TooManyEntries);
        }
        Ok(job.task)
    }

    /// The running job enters a section.
    pub(crate) fn enter(&mut self, section: usize) -> Result<Grant, call::Refusal>
        ensures records { self.new.records ≡ self.old.records }
        ensures refused { IfErr result (λ r. self.new ≡ self.old) }
        ensures value { of_enter result ≡ (step (table_of self.old.records) (Enter section) (state_in W.Queue R.Queue self.old)).answer }
        ensures after { state_in W.Queue R.Queue self.new ≡ (step (table_of self.old.records) (Enter section) (state_in W.Queue R.Queue self.old)).state }
    {
        let task = self.check_entry(section)?;
        let serial = self.inner.enter(section as u32);
        Ok(Grant {
            ticket: Ticket {
                task,
                section,
                serial,
            },
        })
    }
}
