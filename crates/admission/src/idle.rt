//! The idle instant: the first by which the tasks have asked for just as much time as has passed.
ghost use Rattle.std.specs.Prelude.{ℕ, ◌<◌, MatchOption};
ghost use Rattle.admission.specs.Verdict.{Idle, horizon};

use crate::check::Sound;
use crate::instant::Instant;

/// The last instant that is judged.
pub(crate) const HORIZON: u32 = 1_048_576;

impl Sound<'_> {
    /// The idle instant, unless it lies past the horizon. The work released by an instant is a bound on it from below, so each turn
    /// goes on at the work that was released by the last.
    pub(crate) fn idle_instant(&self) -> Option<Instant>
        ensures { MatchOption result ((u : ℕ) → Idle self.now.tasks.now u → horizon < u) (λ t. Idle self.now.tasks.now t.ticks) }
    {
        // No range: each turn goes on at the work that the last one found.
        let mut ticks = 1;
        while ticks <= HORIZON {
            let t = Instant { ticks };
            let work = self.workload_by(t);
            if work == ticks {
                return Some(t);
            }
            ticks = work;
        }
        None
    }
}
