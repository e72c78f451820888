//! A queue kept as an ordered list in lent memory.
ghost use Rattle.std.specs.Prelude.{◌≡◌, ◌+◌, ◌-◌, ◌<◌, ◌≤◌, min, [], length, take, drop};
ghost use Rattle.std.specs.Result.{OnOk};
ghost use Rattle.queue.specs.Order.{Rising, insert_sorted};
ghost use Rattle.queue.specs.Meaning.{limit};
ghost use Rattle.queue.specs.Answer.{answered};
ghost use Rattle.queue.specs.Lists.{list_of, list_room, ListOrdered, list_sound};

use super::{Queue, QueueEntry, Refusal, scan};

/// The first `len` of the lent entries, in rising order.
///
/// `first` reads one entry, `take` moves the others one place, and `insert` moves those that come after the new one.
// The heap has the same fields: a struct for both would only put one more call before each method of one line.
#[derive(Drop)]
pub struct ListQueue<'a, E> {
    entries: &'a mut [E],
    len: usize,
}

/// Puts `e` in front of the entries that it comes before. The last place is free.
fn put<E: QueueEntry>(entries: &mut [E], e: E)
    requires within { 0 < length entries.old }
    requires rising { Rising E.order.before (take (length entries.old - 1) entries.old) }
    ensures { entries.new ≡ insert_sorted E.order.before e (take (length entries.old - 1) entries.old) }
{
    // By a loop: with `partition_point` and `rotate_right` an insert takes about 40 % more instructions.
    let mut i = entries.len() - 1;
    while i > 0 && e.is_before(entries[i - 1]) {
        entries[i] = entries[i - 1];
        i -= 1;
    }
    entries[i] = e;
}

/// Moves each entry but the first one place back.
fn shift<E: QueueEntry>(entries: &mut [E])
    requires { 0 < length entries.old }
    ensures { take (length entries.old - 1) entries.new ≡ drop 1 entries.old }
{
    // By a loop: with `rotate_left` a take takes about 60 % more instructions.
    for i in 1..entries.len() {
        entries[i - 1] = entries[i];
    }
}

impl<'a, E: QueueEntry> ListQueue<'a, E> {
    /// An empty queue with room for as many entries as are lent, and for 32 at most.
    pub fn new(entries: &'a mut [E]) -> ListQueue<'a, E>
        ensures ordered { ListOrdered E.order result }
        ensures list { list_of result ≡ [] }
        ensures capacity { list_room result ≡ min (length entries.old) limit }
    {
        ListQueue { entries, len: 0 }
    }

    /// Whether the entry can join the others.
    fn check(&self, e: E) -> Result<(), Refusal>
        requires { ListOrdered E.order self.now }
        ensures value { result ≡ answered E.order (list_room self.now) e (list_of self.now) }
        ensures room { OnOk result (self.now.len < list_room self.now) }
    {
        scan::check(self.capacity(), e, &self.entries[..self.len])
    }
}

impl<'a, E: QueueEntry> Queue for ListQueue<'a, E> {
    type Entry = E;

    ghost list = { list_of };

    ghost capacity = { list_room };

    ghost ordered = { ListOrdered };

    ghost sound = { list_sound };

    fn insert(&mut self, e: E) -> Result<(), Refusal> {
        self.check(e)?;
        self.len += 1;
        put(&mut self.entries[..self.len], e);
        Ok(())
    }

    fn first(&self) -> Option<E> {
        self.entries[..self.len].first().copied()
    }

    fn take(&mut self) -> Option<E> {
        let first = self.first()?;
        shift(&mut self.entries[..self.len]);
        self.len -= 1;
        Some(first)
    }

    fn count(&self) -> usize {
        self.len
    }

    fn capacity(&self) -> usize {
        scan::room(self.entries.len())
    }
}
