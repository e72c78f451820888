//! Finish.
ghost use Rattle.std.specs.Prelude.{◌≡◌, IfErr, MatchResult, Some, None};
ghost use Rattle.machine.specs.declared.call.Call.TheVariants.{Finish};
ghost use Rattle.machine.specs.Step.{step};
ghost use Rattle.scheduler.specs.Calls.{of_finish};
ghost use Rattle.scheduler.specs.Moves.{finish_refusal};
ghost use Rattle.scheduler.specs.View.{table_of};
ghost use Rattle.scheduler.specs.Parts.{state_in};

use super::Engine;
use machine::call;
use queue::{Queue, Released, Waiting};

impl<W: Queue<Entry = Waiting>, R: Queue<Entry = Released>> Engine<W, R> {
    /// Refuses a finish.
    fn check_finish(&self) -> Result<(), call::Refusal>
        ensures { MatchResult result (λ _. finish_refusal self.now.inner ≡ None) (λ r. finish_refusal self.now.inner ≡ Some r) }
    {
        let job = self.inner.top().ok_or(call::Refusal::NothingRuns)?;
        if !job.opened.is_empty() {
            return Err(call::Refusal::StillOpen);
        }
        Ok(())
    }

    /// The running job is done.
    pub(crate) fn finish(&mut self) -> Result<u32, call::Refusal>
        ensures records { self.new.records ≡ self.old.records }
        ensures refused { IfErr result (λ r. self.new ≡ self.old) }
        ensures value { of_finish result ≡ (step (table_of self.old.records) Finish (state_in W.Queue R.Queue self.old)).answer }
        ensures after { state_in W.Queue R.Queue self.new ≡ (step (table_of self.old.records) Finish (state_in W.Queue R.Queue self.old)).state }
    {
        self.check_finish()?;
        let entry = self.again();
        let _ = self.waiting.insert(entry);
        self.inner.finish();
        self.select();
        Ok(self.inner.running())
    }
}
