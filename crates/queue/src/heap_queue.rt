//! A queue kept as a binary heap in lent memory.
ghost use Rattle.std.specs.Prelude.{◌≡◌, ◌+◌, ◌-◌, ◌*◌, ◌<◌, ◌≤◌, min, [], length};
ghost use Rattle.std.specs.Result.{OnOk};
ghost use Rattle.queue.specs.Order.{sorted};
ghost use Rattle.queue.specs.Meaning.{limit};
ghost use Rattle.queue.specs.Answer.{answered};
ghost use Rattle.queue.specs.Heaps.{Child, Heap, Above, Beneath, Least, heap_list, heap_room, HeapOrdered, heap_sound};

use super::{Queue, QueueEntry, Refusal, scan};

/// The first `len` of the lent entries, as a heap: no entry comes before the one above it.
///
/// `first` reads one entry; `insert` and `take` compare one entry, or two, on each of the log of `len` levels that they pass.
// The ordered list has the same fields: a struct for both would only put one more call before each method of one line.
#[derive(Drop)]
pub struct HeapQueue<'a, E> {
    entries: &'a mut [E],
    len: usize,
}

/// The place above `i`.
fn parent_of(i: usize) -> usize
    requires { 0 < i }
    ensures { Child result i }
{
    (i - 1) / 2
}

/// Moves the last entry up to its place.
fn sift_up<E: QueueEntry>(entries: &mut [E])
    requires within { 0 < length entries.old }
    requires shape { Above E.order.before entries.old (length entries.old) (length entries.old - 1) }
    ensures shape { Heap E.order.before entries.new (length entries.old) }
    ensures same { sorted E.order.before entries.new ≡ sorted E.order.before entries.old }
{
    // The places of a path up, each from the one before it: no iterator over the entries gives them.
    let mut i = entries.len() - 1;
    while i > 0 {
        let parent = parent_of(i);
        if !entries[i].is_before(entries[parent]) {
            return;
        }
        entries.swap(i, parent);
        i = parent;
    }
}

/// The child of `i` that comes first.
fn least_child<E: QueueEntry>(entries: &[E], i: usize) -> usize
    requires { (2 * i + 1 < length entries.now) × (length entries.now ≤ limit) }
    ensures { Least E.order.before entries.now (length entries.now) i result }
{
    let left = 2 * i + 1;
    let right = left + 1;
    if right < entries.len() && entries[right].is_before(entries[left]) {
        return right;
    }
    left
}

/// Moves the entry at the root down to its place.
fn sift_down<E: QueueEntry>(entries: &mut [E])
    requires within { length entries.old ≤ limit }
    requires shape { Beneath E.order.before entries.old (length entries.old) 0 }
    ensures shape { Heap E.order.before entries.new (length entries.old) }
    ensures same { sorted E.order.before entries.new ≡ sorted E.order.before entries.old }
{
    // A path down, which each comparison decides anew.
    let mut i = 0;
    while 2 * i + 1 < entries.len() {
        let child = least_child(entries, i);
        if !entries[child].is_before(entries[i]) {
            return;
        }
        entries.swap(i, child);
        i = child;
    }
}

impl<'a, E: QueueEntry> HeapQueue<'a, E> {
    /// An empty queue with room for as many entries as are lent, and for 32 at most.
    pub fn new(entries: &'a mut [E]) -> HeapQueue<'a, E>
        ensures ordered { HeapOrdered E.order E.order result }
        ensures list { heap_list E.order result ≡ [] }
        ensures capacity { heap_room result ≡ min (length entries.old) limit }
    {
        HeapQueue { entries, len: 0 }
    }

    /// Whether the entry can join the others.
    fn check(&self, e: E) -> Result<(), Refusal>
        requires { HeapOrdered E.order E.order self.now }
        ensures value { result ≡ answered E.order (heap_room self.now) e (heap_list E.order self.now) }
        ensures room { OnOk result (self.now.len < heap_room self.now) }
    {
        scan::check(self.capacity(), e, &self.entries[..self.len])
    }
}

impl<'a, E: QueueEntry> Queue for HeapQueue<'a, E> {
    type Entry = E;

    ghost list = { heap_list E.order };

    ghost capacity = { heap_room };

    ghost ordered = { HeapOrdered E.order };

    ghost sound = { heap_sound E.order };

    fn insert(&mut self, e: E) -> Result<(), Refusal> {
        self.check(e)?;
        self.entries[self.len] = e;
        self.len += 1;
        sift_up(&mut self.entries[..self.len]);
        Ok(())
    }

    fn first(&self) -> Option<E> {
        self.entries[..self.len].first().copied()
    }

    fn take(&mut self) -> Option<E> {
        let first = self.first()?;
        self.len -= 1;
        self.entries[0] = self.entries[self.len];
        sift_down(&mut self.entries[..self.len]);
        Some(first)
    }

    fn count(&self) -> usize {
        self.len
    }

    fn capacity(&self) -> usize {
        scan::room(self.entries.len())
    }
}
