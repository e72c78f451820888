//! Advance.
ghost use Rattle.std.specs.Prelude.{◌≡◌, IfErr, MatchResult, Some, None};
ghost use Rattle.machine.specs.declared.call.Call.TheVariants.{Advance};
ghost use Rattle.machine.specs.Step.{step};
ghost use Rattle.scheduler.specs.Calls.{of_advance};
ghost use Rattle.scheduler.specs.Moves.{refused_at};
ghost use Rattle.scheduler.specs.View.{table_of};
ghost use Rattle.scheduler.specs.Parts.{state_in};

use super::Engine;
use machine::call;
use queue::{Queue, Released, Waiting};

/// The last instant that the clock can show.
const LAST_INSTANT: u64 = 281_474_976_710_655;

/// Refuses an advance to t, by the clock and what is due.
fn check_instant(t: u64, clock: u64, due: Option<u64>) -> Result<(), call::Refusal>
    ensures { MatchResult result (λ _. refused_at t clock due ≡ None) (λ r. refused_at t clock due ≡ Some r) }
{
    if t < clock {
        return Err(call::Refusal::Past);
    }
    if t > LAST_INSTANT {
        return Err(call::Refusal::Far);
    }
    match due {
        Some(due) if due < t => Err(call::Refusal::BeyondDue(due)),
        _ => Ok(()),
    }
}

impl<W: Queue<Entry = Waiting>, R: Queue<Entry = Released>> Engine<W, R> {
    /// The clock goes on to t.
    pub(crate) fn advance(&mut self, t: u64) -> Result<(u32, u32, u32), call::Refusal>
        ensures records { self.new.records ≡ self.old.records }
        ensures refused { IfErr result (λ r. self.new ≡ self.old) }
        ensures value { of_advance result ≡ (step (table_of self.old.records) (Advance t) (state_in W.Queue R.Queue self.old)).answer }
        ensures after { state_in W.Queue R.Queue self.new ≡ (step (table_of self.old.records) (Advance t) (state_in W.Queue R.Queue self.old)).state }
    {
        check_instant(t, self.clock(), self.due())?;
        self.inner.set_clock(t);
        let ended = self.expire_running(t);
        let lapsed = self.lapse(t);
        let released = self.release(t);
        self.select();
        Ok((ended + lapsed, released, self.inner.running()))
    }
}
