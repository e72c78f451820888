//! The tests that both queues make of the entries in use before an insert.
ghost use Rattle.std.specs.Prelude.{◌≡◌, min};
ghost use Rattle.queue.specs.Meaning.{limit, queued};
ghost use Rattle.queue.specs.Answer.{answered};

use super::{QueueEntry, Refusal};

/// How many tasks there can be, and how many entries in a queue.
const LIMIT: usize = 32;

/// How many of the lent entries a queue uses.
pub(super) fn room(lent: usize) -> usize
    ensures { result ≡ min lent limit }
{
    lent.min(LIMIT)
}

/// Whether one of the entries in use is of the task.
///
/// A scan of at most 32 entries: a set of tasks beside them would have to be kept by every call, and is not needed at this size.
fn holds<E: QueueEntry>(used: &[E], task: usize) -> bool
    ensures { result ≡ queued E.order.task_of task used.now }
{
    // By a loop: `any` takes one instruction more for each entry, about 6 % of a whole insert and take.
    for e in used {
        if e.task() == task {
            return true;
        }
    }
    false
}

/// Whether the entry can join those in use: that its task is not fit counts before that there is no room.
pub(super) fn check<E: QueueEntry>(room: usize, e: E, used: &[E]) -> Result<(), Refusal>
    ensures { result ≡ answered E.order room e used.now }
{
    let task = e.task();
    if task >= LIMIT || holds(used, task) {
        return Err(Refusal::Present);
    }
    if used.len() >= room {
        return Err(Refusal::Full);
    }
    Ok(())
}
