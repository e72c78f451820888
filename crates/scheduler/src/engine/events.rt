//! What an advance does before selection: jobs end at their deadlines, and tasks are released.
ghost use Rattle.std.specs.Prelude.{◌≡◌, ◌+◌, ◌<◌, ◌≤◌, false, length, if◌then◌else◌};
ghost use Rattle.table.specs.Limits.{most_tasks};
ghost use Rattle.machine.specs.Step.{last_instant, top_expired, lapsed, released_at};
ghost use Rattle.scheduler.specs.View.{table_of, jobs_of};
ghost use Rattle.scheduler.specs.Moves.{again_of};
ghost use Rattle.scheduler.specs.Parts.{state_in};

use super::Engine;
use queue::{Queue, Released, Waiting};

impl<W: Queue<Entry = Waiting>, R: Queue<Entry = Released>> Engine<W, R> {
    /// The entry with which the running task waits once its job has ended.
    pub(super) fn again(&self) -> Waiting
        requires { 0 < self.now.inner.depth }
        ensures { result ≡ again_of (table_of self.now.records) self.now.inner }
    {
        let inner = &self.inner;
        let top = &inner.stack[inner.depth - 1];
        self.records.next_release(top.task, top.deadline)
    }

    /// The running job ends if its deadline is t; answers how many did.
    pub(super) fn expire_running(&mut self, t: u64) -> u32
        ensures records { self.new.records ≡ self.old.records }
        ensures few { result ≤ 1 }
        ensures counts { (self.new.inner.counts.expiries ≡ self.old.inner.counts.expiries + result) × (self.new.inner.counts.releases ≡ self.old.inner.counts.releases) }
        ensures after { state_in W.Queue R.Queue self.new ≡ top_expired (table_of self.old.records) t (state_in W.Queue R.Queue self.old) (jobs_of self.old.inner.stack self.old.inner.depth) }
    {
        if !self.inner.is_due(t) {
            return 0;
        }
        let entry = self.again();
        let _ = self.waiting.insert(entry);
        self.inner.expire();
        1
    }

    /// The first released job ends if its deadline is t; answers whether it did.
    fn lapse_first(&mut self, t: u64) -> bool
        ensures few { length (R.list self.old.released) ≤ most_tasks }
        ensures records { self.new.records ≡ self.old.records }
        ensures counts { (self.new.inner.counts.expiries ≡ self.old.inner.counts.expiries + (if result then 1 else 0)) × (self.new.inner.counts.releases ≡ self.old.inner.counts.releases) × (length (R.list self.new.released) + (if result then 1 else 0) ≡ length (R.list self.old.released)) }
        ensures same { lapsed (table_of self.old.records) t (state_in W.Queue R.Queue self.new) (R.list self.new.released) ≡ lapsed (table_of self.old.records) t (state_in W.Queue R.Queue self.old) (R.list self.old.released) }
        ensures ends { result ≡ false → lapsed (table_of self.old.records) t (state_in W.Queue R.Queue self.new) (R.list self.new.released) ≡ state_in W.Queue R.Queue self.new }
    {
        let Some(e) = self.released.first() else {
            return false;
        };
        if e.deadline != t {
            return false;
        }
        let _ = self.released.take();
        let entry = self.records.next_release(e.task, e.deadline);
        let _ = self.waiting.insert(entry);
        self.inner.lapse(e.task);
        true
    }

    /// Each released job whose deadline is t ends, in the queue's order; answers how many did.
    pub(super) fn lapse(&mut self, t: u64) -> u32
        ensures records { self.new.records ≡ self.old.records }
        ensures few { result ≤ most_tasks }
        ensures counts { (self.new.inner.counts.expiries ≡ self.old.inner.counts.expiries + result) × (self.new.inner.counts.releases ≡ self.old.inner.counts.releases) }
        ensures after { state_in W.Queue R.Queue self.new ≡ lapsed (table_of self.old.records) t (state_in W.Queue R.Queue self.old) (R.list self.old.released) }
    {
        let mut ended = 0;
        while self.lapse_first(t) {
            ended += 1;
        }
        ended
    }

    /// The first waiting task is released if its release is t; answers whether it was.
    // Not one function with `lapse_first`: which queue gives, what instant its entry has, what entry the other gets and what is counted all differ.
    fn release_first(&mut self, t: u64) -> bool
        requires { t ≤ last_instant }
        ensures few { length (W.list self.old.waiting) ≤ most_tasks }
        ensures records { self.new.records ≡ self.old.records }
        ensures counts { (self.new.inner.counts.releases ≡ self.old.inner.counts.releases + (if result then 1 else 0)) × (self.new.inner.counts.expiries ≡ self.old.inner.counts.expiries) × (length (W.list self.new.waiting) + (if result then 1 else 0) ≡ length (W.list self.old.waiting)) }
        ensures same { released_at (table_of self.old.records) t (state_in W.Queue R.Queue self.new) (W.list self.new.waiting) ≡ released_at (table_of self.old.records) t (state_in W.Queue R.Queue self.old) (W.list self.old.waiting) }
        ensures ends { result ≡ false → released_at (table_of self.old.records) t (state_in W.Queue R.Queue self.new) (W.list self.new.waiting) ≡ state_in W.Queue R.Queue self.new }
    {
        let Some(w) = self.waiting.first() else {
            return false;
        };
        if w.release != t {
            return false;
        }
        let _ = self.waiting.take();
        let entry = self.records.released(w);
        let _ = self.released.insert(entry);
        self.inner.release(w.task);
        true
    }

    /// Each waiting task whose release is t is released, in the queue's order; answers how many were.
    pub(super) fn release(&mut self, t: u64) -> u32
        requires { t ≤ last_instant }
        ensures records { self.new.records ≡ self.old.records }
        ensures few { result ≤ most_tasks }
        ensures counts { (self.new.inner.counts.releases ≡ self.old.inner.counts.releases + result) × (self.new.inner.counts.expiries ≡ self.old.inner.counts.expiries) }
        ensures after { state_in W.Queue R.Queue self.new ≡ released_at (table_of self.old.records) t (state_in W.Queue R.Queue self.old) (W.list self.old.waiting) }
    {
        let mut out = 0;
        while self.release_first(t) {
            out += 1;
        }
        out
    }
}
