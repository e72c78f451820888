//! The entry of a task that is released.
ghost use Rattle.queue.specs.Entries.{released_order};
ghost use Rattle.std.proofs.Common.{arith};
ghost use Rattle.std.proofs.lemmas.Bool.Decides.{nat_tests};
ghost use Rattle.queue.specs.ReleasedLemmas.{by_trans, by_total, last_trans, last_total, same};

use super::QueueEntry;

/// A task that is released: its absolute deadline, its relative deadline and its number. The order is that of the fields.
#[derive(Clone, Copy, Debug, PartialEq, Eq, PartialOrd, Ord)]
pub struct Released {
    pub deadline: u64,
    pub relative: u32,
    pub task: usize,
}

impl Released {
    /// What lent memory can hold before a queue writes in it.
    pub const EMPTY: Released = Released {
        deadline: 0,
        relative: 0,
        task: 0,
    };
}

impl QueueEntry for Released {
    ghost order = { released_order };

    ghost total = { record {
      irreflexive = λ x. Prim.grind (arith, nat_tests);
      transitive = λ x y z. by_trans x.deadline y.deadline z.deadline _ _ _ (by_trans x.relative y.relative z.relative _ _ _ (last_trans x.task y.task z.task));
      total = λ x y p q.
          let d = by_total x.deadline y.deadline _ _ p q in
          let r = by_total x.relative y.relative _ _ d.1 d.2 in
          same x y d.0 r.0 (last_total x.task y.task r.1 r.2);
    } };

    fn is_before(self, other: Released) -> bool {
        self < other
    }

    fn task(self) -> usize {
        self.task
    }
}
