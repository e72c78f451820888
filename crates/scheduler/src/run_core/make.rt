//! Making a core from a pass and two queues.
ghost use Rattle.std.specs.Prelude.{◌≡◌, ◌≤◌, true, false, [], ◌&&◌, length, ◌==◌, nat_le};
ghost use Rattle.table.specs.Limits.{most_tasks};
ghost use Rattle.admission.specs.Passed.{Passed};
ghost use Rattle.queue.specs.Entries.{waiting_order, released_order};
ghost use Rattle.machine.specs.State.{start, first_releases};
ghost use Rattle.scheduler.specs.Moves.{fresh};
ghost use Rattle.scheduler.specs.View.{table_of};
ghost use Rattle.scheduler.specs.Parts.{view};
ghost use Rattle.scheduler.specs.Ready.{pass_table, ready};

use super::{Core, State};
use crate::engine::Engine;
use crate::idle::Idle;
use crate::records::Records;
use crate::stack::Inner;
use admission::pass::Pass;
use queue::{Queue, Released, Waiting};

/// Whether a queue can serve so many tasks: it holds no entry, and has room for every task.
fn serves<Q: Queue>(queue: &Q, tasks: usize) -> bool
    requires { Q.ordered Q.Entry.order queue.now }
    ensures { result ≡ (length (Q.list queue.now) == 0 && nat_le tasks (Q.capacity queue.now)) }
{
    queue.count() == 0 && tasks <= queue.capacity()
}

/// Puts every task into an empty queue, to be released at instant 0.
fn fill<W: Queue<Entry = Waiting>>(waiting: &mut W, tasks: usize)
    requires ordered { W.ordered waiting_order waiting.old }
    requires empty { W.list waiting.old ≡ [] }
    requires room { (tasks ≤ W.capacity waiting.old) × (tasks ≤ most_tasks) }
    ensures ordered { W.ordered waiting_order waiting.new }
    ensures capacity { W.capacity waiting.new ≡ W.capacity waiting.old }
    ensures list { W.list waiting.new ≡ first_releases 0 tasks }
{
    for task in 0..tasks {
        let _ = waiting.insert(Waiting { release: 0, task });
    }
}

impl<W: Queue<Entry = Waiting>, R: Queue<Entry = Released>> Core<W, R> {
    /// A core that runs the pass's table from instant 0, with every task waiting.
    ///
    /// Where a queue holds an entry or has no room for every task, the core is shut: it leaves the queues as they were, and refuses every call and
    /// question.
    pub fn new(pass: Pass, mut waiting: W, released: R) -> Core<W, R>
        requires pass { Passed pass }
        requires ordered { W.ordered waiting_order waiting × R.ordered released_order released }
        ensures table { table_of result.records ≡ pass_table pass.entry }
        ensures own { result.inner ≡ fresh }
        ensures live { result.live ≡ ready (pass_table pass.entry) (W.list waiting) (R.list released) (W.capacity waiting) (R.capacity released) }
        ensures started { result.live ≡ true → view W.Queue R.Queue result ≡ start (pass_table pass.entry) }
        ensures same { result.live ≡ false → (result.waiting ≡ waiting) × (result.released ≡ released) }
    {
        let records = Records::copy(pass.tasks(), pass.sections());
        let tasks = records.tasks.len();
        if !serves(&waiting, tasks) || !serves(&released, tasks) {
            let idle = Idle {
                records,
                waiting,
                released,
            };
            return Core {
                state: State::Shut(idle),
            };
        }
        fill(&mut waiting, tasks);
        let engine = Engine {
            records,
            inner: Inner::new(),
            waiting,
            released,
        };
        Core {
            state: State::Live(engine),
        }
    }
}
