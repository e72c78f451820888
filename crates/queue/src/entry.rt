//! What a queue asks of an entry.
ghost use Rattle.std.specs.Prelude.{◌≡◌};
ghost use Rattle.queue.specs.Order.{Order, Total};

/// What a queue asks of its entries: a total order, and the number of the task that each is of.
pub trait QueueEntry: Copy {
    ghost order: { Order Self };

    /// Whether this entry comes before the other; no entry comes before itself.
    ///
    /// It is asked for, and not taken from `Ord`: a bound would ask more of an entry than its order.
    fn is_before(self, other: Self) -> bool
        ensures { result ≡ order.before self other };

    /// The number of the entry's task.
    fn task(self) -> usize
        ensures { result ≡ order.task_of self };

    ghost total: { Total order.before };
}
