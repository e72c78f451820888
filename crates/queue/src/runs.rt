//! Lists of calls, and the law that any two queues answer them alike.
ghost use Rattle.std.specs.Prelude.{◌≡◌, [], length, is_ok, IfErr, OnErr, OnOk};
ghost use Rattle.queue.specs.Runs.{answer_to, list_after, answers_to, list_after_all, Alike, comparable, mismatch_of};

use super::{Queue, QueueEntry, Refusal};

/// A call of a queue.
#[derive(Clone, Copy, Debug, PartialEq, Eq)]
pub enum Call<E> {
    Insert(E),
    Take,
}

/// What a call answers.
#[derive(Clone, Copy, Debug, PartialEq, Eq)]
pub enum Answer<E> {
    Inserted(Result<(), Refusal>),
    Taken(Option<E>),
}

/// Makes one call.
fn make<Q: Queue>(call: Call<Q::Entry>, q: &mut Q) -> Answer<Q::Entry>
    requires { Q.ordered Q.Entry.order q.old }
    ensures ordered { Q.ordered Q.Entry.order q.new }
    ensures capacity { Q.capacity q.new ≡ Q.capacity q.old }
    ensures value { result ≡ answer_to Q.Entry.order (Q.capacity q.old) call (Q.list q.old) }
    ensures after { Q.list q.new ≡ list_after Q.Entry.order (Q.capacity q.old) call (Q.list q.old) }
{
    match call {
        Call::Insert(e) => Answer::Inserted(q.insert(e)),
        Call::Take => Answer::Taken(q.take()),
    }
}

/// Makes the calls in their order, and writes down what each answers.
fn run<Q: Queue>(calls: &[Call<Q::Entry>], q: &mut Q, answers: &mut [Answer<Q::Entry>])
    requires ordered { Q.ordered Q.Entry.order q.old }
    requires room { length answers.old ≡ length calls.now }
    ensures ordered { Q.ordered Q.Entry.order q.new }
    ensures capacity { Q.capacity q.new ≡ Q.capacity q.old }
    ensures value { answers.new ≡ answers_to Q.Entry.order (Q.capacity q.old) calls.now (Q.list q.old) }
    ensures after { Q.list q.new ≡ list_after_all Q.Entry.order (Q.capacity q.old) calls.now (Q.list q.old) }
{
    // By number: of what `answers.iter_mut().zip(calls)` lends, nothing is known after the loop.
    for (i, call) in calls.iter().enumerate() {
        answers[i] = make(*call, q);
    }
}

/// Makes the same calls on two empty queues of one capacity.
fn run_both<P: Queue, Q: Queue<Entry = P::Entry>>(
    calls: &[Call<P::Entry>],
    p: &mut P,
    q: &mut Q,
    from_p: &mut [Answer<P::Entry>],
    from_q: &mut [Answer<P::Entry>],
)
    requires ordered { P.ordered P.Entry.order p.old × Q.ordered P.Entry.order q.old }
    requires empty { (P.list p.old ≡ []) × (Q.list q.old ≡ []) }
    requires capacity { P.capacity p.old ≡ Q.capacity q.old }
    requires room { (length from_p.old ≡ length calls.now) × (length from_q.old ≡ length calls.now) }
    ensures ordered { P.ordered P.Entry.order p.new × Q.ordered P.Entry.order q.new }
    ensures capacity { (P.capacity p.new ≡ P.capacity p.old) × (Q.capacity q.new ≡ Q.capacity q.old) }
    ensures law { Alike P.Entry.order (P.capacity p.old) calls.now from_p.new from_q.new (P.list p.new) (Q.list q.new) }
{
    run(calls, p, from_p);
    run(calls, q, from_q);
}

/// Why two queues are not given the same calls.
#[derive(Clone, Copy, Debug, PartialEq, Eq)]
pub enum Mismatch {
    /// A queue holds an entry.
    Entries,
    /// The capacities differ.
    Capacities,
    /// There is not one place for each answer.
    Places,
}

/// Makes the same calls on two empty queues of one capacity: they answer alike and hold the same list after.
///
/// What comes out by takes alone is in rising order, and every entry that was put in came out or is still there, once. Where a queue
/// holds an entry, the capacities differ, or there is not one place for each answer, it makes no call and says which, the first that holds.
pub fn both<P: Queue, Q: Queue<Entry = P::Entry>>(
    calls: &[Call<P::Entry>],
    p: &mut P,
    q: &mut Q,
    from_p: &mut [Answer<P::Entry>],
    from_q: &mut [Answer<P::Entry>],
) -> Result<(), Mismatch>
    requires ordered { P.ordered P.Entry.order p.old × Q.ordered P.Entry.order q.old }
    ensures ordered { P.ordered P.Entry.order p.new × Q.ordered P.Entry.order q.new }
    ensures capacity { (P.capacity p.new ≡ P.capacity p.old) × (Q.capacity q.new ≡ Q.capacity q.old) }
    ensures value { is_ok result ≡ comparable (P.list p.old) (Q.list q.old) (P.capacity p.old) (Q.capacity q.old) (length calls.now) (length from_p.old) (length from_q.old) }
    ensures reason { IfErr result (λ r. r ≡ mismatch_of (P.list p.old) (Q.list q.old) (P.capacity p.old) (Q.capacity q.old)) }
    ensures same { OnErr result ((P.list p.new ≡ P.list p.old) × (Q.list q.new ≡ Q.list q.old) × (from_p.new ≡ from_p.old) × (from_q.new ≡ from_q.old)) }
    ensures law { OnOk result (Alike P.Entry.order (P.capacity p.old) calls.now from_p.new from_q.new (P.list p.new) (Q.list q.new)) }
{
    if p.count() != 0 || q.count() != 0 {
        return Err(Mismatch::Entries);
    }
    if p.capacity() != q.capacity() {
        return Err(Mismatch::Capacities);
    }
    if from_p.len() != calls.len() || from_q.len() != calls.len() {
        return Err(Mismatch::Places);
    }
    run_both(calls, p, q, from_p, from_q);
    Ok(())
}
