//! Queues of at most 32 entries over lent memory.
//!
//! A queue means a capacity that never changes and a list of entries in rising order, no two of one task.
//! The trait `Queue` says what each call does to that list; `ListQueue` and `HeapQueue` both meet it.
//! Nothing here allocates.

#![tactic(auto)]

ghost use Rattle.std.specs.Prelude.{◌≡◌, ℕ, List, length};
ghost use Rattle.queue.specs.Order.{Order};
ghost use Rattle.queue.specs.Meaning.{Sound, first_of, rest_of};
ghost use Rattle.queue.specs.Answer.{answered, inserted};

mod entry;
mod heap_queue;
mod list_queue;
mod refusal;
mod released;
mod runs;
mod scan;
mod waiting;

pub use entry::QueueEntry;
pub use heap_queue::HeapQueue;
pub use list_queue::ListQueue;
pub use refusal::Refusal;
pub use released::Released;
pub use runs::{Answer, Call, Mismatch, both};
pub use waiting::Waiting;

/// A queue of entries of at most 32 tasks, the first entry first.
///
/// `list` is what the queue holds, `capacity` how many entries it can hold, and `ordered` what has to be true of its memory.
/// A new queue is ordered, and every call asks for it and keeps it: it is no invariant of the type, so that code over any queue can name it.
/// `sound` says what follows of the list and the capacity of any ordered queue.
pub trait Queue {
    type Entry: QueueEntry;

    ghost list: { Self → List Self.Entry };

    ghost capacity: { Self → ℕ };

    ghost ordered: { Order Self.Entry → Self → Type 0 };

    ghost sound: { (o : Order Self.Entry) (q : Self) → ordered o q → Sound o (capacity q) (list q) };

    /// Puts the entry in its place, or refuses it and leaves the queue as it was.
    fn insert(&mut self, e: Self::Entry) -> Result<(), Refusal>
        requires { ordered Self.Entry.order self.old }
        ensures ordered { ordered Self.Entry.order self.new }
        ensures capacity { capacity self.new ≡ capacity self.old }
        ensures value { result ≡ answered Self.Entry.order (capacity self.old) e (list self.old) }
        ensures after { list self.new ≡ inserted Self.Entry.order (capacity self.old) e (list self.old) };

    /// The first entry, if there is one.
    fn first(&self) -> Option<Self::Entry>
        requires { ordered Self.Entry.order self.now }
        ensures { result ≡ first_of (list self.now) };

    /// Removes the first entry, if there is one, and answers it.
    fn take(&mut self) -> Option<Self::Entry>
        requires { ordered Self.Entry.order self.old }
        ensures ordered { ordered Self.Entry.order self.new }
        ensures capacity { capacity self.new ≡ capacity self.old }
        ensures value { result ≡ first_of (list self.old) }
        ensures after { list self.new ≡ rest_of (list self.old) };

    /// How many entries there are.
    fn count(&self) -> usize
        requires { ordered Self.Entry.order self.now }
        ensures { result ≡ length (list self.now) };

    /// How many entries there can be.
    fn capacity(&self) -> usize
        requires { ordered Self.Entry.order self.now }
        ensures { result ≡ capacity self.now };
}
