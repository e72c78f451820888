//! Judging: whether what is asked for fits, at each instant up to a last one. Only deadlines are looked at, since no more is asked
//! for at any other instant than at the one before.
ghost use Rattle.std.specs.Prelude.{◌≡◌, ◌+◌, ◌-◌, ◌*◌, ◌/◌, MatchResult};
ghost use Rattle.admission.specs.Due.{NextOf, Next};
ghost use Rattle.admission.specs.Facts.{Timed};
ghost use Rattle.admission.specs.Until.{FitsUntil, RefusedBy};
ghost use Rattle.admission.specs.Verdict.{Admitted, Refused};

use crate::check::Sound;
use crate::demand::jobs;
use crate::idle::HORIZON;
use crate::instant::Instant;
use crate::refusal::Refusal;
use table::records::TaskRecord;

/// The first deadline of a task past `t`.
fn task_deadline(task: &TaskRecord, t: Instant) -> u32
    requires { Timed task.now }
    ensures value { result ≡ task.now.deadline + (t.ticks + task.now.period - task.now.deadline) / task.now.period * task.now.period }
    ensures next { NextOf task.now t.ticks result }
{
    task.deadline + jobs(task, task.deadline, t) * task.period
}

impl Sound<'_> {
    /// The first deadline of any task past `t`.
    fn next_deadline(&self, t: Instant) -> u32
        ensures { Next self.now.tasks.now t.ticks result }
    {
        self.tasks
            .iter()
            .map(|task| task_deadline(task, t))
            .min()
            .unwrap()
    }

    /// Judges every instant from 1 to `last`, and refuses at the first that does not fit.
    fn fits_until(&self, last: Instant) -> Result<(), Refusal>
        ensures { MatchResult result (λ _. FitsUntil self.now.tasks.now self.now.sections.now last.ticks) (RefusedBy self.now.tasks.now self.now.sections.now last.ticks) }
    {
        // No range: from one deadline to the next.
        let mut ticks = self.next_deadline(Instant { ticks: 0 });
        while ticks <= last.ticks {
            let t = Instant { ticks };
            let all = self.demand_by(t) + self.blocking_at(t);
            if all > ticks {
                return Err(Refusal::Demand(ticks, all));
            }
            ticks = self.next_deadline(t);
        }
        Ok(())
    }

    /// Judges the records: their idle instant, or why they are not admitted.
    pub(crate) fn judge(&self) -> Result<Instant, Refusal>
        ensures { MatchResult result (λ t. Admitted self.now.tasks.now self.now.sections.now t.ticks) (Refused self.now.tasks.now self.now.sections.now) }
    {
        let idle = self.idle_instant();
        self.fits_until(idle.unwrap_or(Instant { ticks: HORIZON }))?;
        idle.ok_or(Refusal::Undecided)
    }
}
