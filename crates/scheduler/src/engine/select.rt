//! Selection: whether the first released task is pushed, and the push.
ghost use Rattle.std.specs.Prelude.{◌≡◌};
ghost use Rattle.machine.specs.Step.{selected};
ghost use Rattle.scheduler.specs.View.{table_of};
ghost use Rattle.scheduler.specs.Moves.{goes_over};
ghost use Rattle.scheduler.specs.Parts.{state_in};

use super::Engine;
use queue::{Queue, Released, Waiting};

impl<W: Queue<Entry = Waiting>, R: Queue<Entry = Released>> Engine<W, R> {
    /// Whether a released task may be pushed: it runs before the running task, and no open section holds it back.
    fn goes(&self, e: Released) -> bool
        ensures { result ≡ goes_over (table_of self.now.records) self.now.inner e }
    {
        let Some(top) = self.inner.top() else {
            return true;
        };
        e.deadline < top.deadline && e.relative < self.records.inherited(top)
    }

    /// Pushes the first released task, if it may be pushed.
    pub(super) fn select(&mut self)
        ensures records { self.new.records ≡ self.old.records }
        ensures counts { self.new.inner.counts ≡ self.old.inner.counts }
        ensures after { state_in W.Queue R.Queue self.new ≡ selected (table_of self.old.records) (state_in W.Queue R.Queue self.old) }
    {
        if let Some(e) = self.released.first() {
            if self.goes(e) {
                let _ = self.released.take();
                self.inner.push(e.task, e.deadline);
            }
        }
    }
}
