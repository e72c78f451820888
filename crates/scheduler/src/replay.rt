//! Replay: a list of calls made on a new core, and what holds of every such run.
ghost use Rattle.std.specs.Prelude.{◌≡◌, ◌≤◌, true, false, ◌++◌, length, drop, is_ok, IfOk, IfErr, nat_le};
ghost use Rattle.admission.specs.Passed.{Passed};
ghost use Rattle.queue.specs.Entries.{waiting_order, released_order};
ghost use Rattle.scheduler.specs.View.{table_of};
ghost use Rattle.scheduler.specs.Moves.{fresh};
ghost use Rattle.scheduler.specs.Parts.{view};
ghost use Rattle.scheduler.specs.Ready.{pass_table, ready};
ghost use Rattle.scheduler.specs.Calls.{answer_of, state_after, refusal_of};
ghost use Rattle.scheduler.specs.Replayed.{answers_from, state_from, Ran, AllShut};

use crate::answer::{Answer, Refusal};
use crate::grant::{Grant, LeaveRefusal};
use crate::run_core::Core;
use admission::pass::Pass;
use machine::call;
use machine::call::Call;
use queue::{Queue, Released, Waiting};

/// What replay was given, where there is not one place for each answer. It is handed back as it was.
#[derive(Drop)]
pub struct NoRoom<'a, W, R> {
    pub pass: Pass<'a>,
    pub waiting: W,
    pub released: R,
}

/// A refusal to leave without its grant, which is spent: of a grant that was not innermost its numbers are left.
// No `From`: an impl is public, and by it any caller could let go a grant that was handed back.
fn spent(refusal: LeaveRefusal) -> Refusal
    ensures { result ≡ refusal_of refusal }
{
    match refusal {
        LeaveRefusal::Shut(Grant { ticket: _ }) => Refusal::Shut,
        LeaveRefusal::NotInnermost(Grant { ticket }) => {
            Refusal::Machine(call::Refusal::NotInnermost(ticket))
        }
        LeaveRefusal::NotOpen => Refusal::Machine(call::Refusal::NotOpen),
    }
}

/// Makes one call; a leave names its grant by its three numbers.
fn make<W: Queue<Entry = Waiting>, R: Queue<Entry = Released>>(
    core: &mut Core<W, R>,
    call: Call,
) -> Answer
    ensures live { core.new.live ≡ core.old.live }
    ensures table { core.new.records ≡ core.old.records }
    ensures shut { core.old.live ≡ false → core.new ≡ core.old }
    ensures value { result ≡ answer_of core.old.live (table_of core.old.records) call (view W.Queue R.Queue core.old) }
    ensures after { view W.Queue R.Queue core.new ≡ state_after core.old.live (table_of core.old.records) call (view W.Queue R.Queue core.old) }
{
    let told = match call {
        Call::Advance(t) => core.advance(t).map(|told| Answer::Advanced(told)),
        Call::Enter(section) => core
            .enter(section)
            .map(|Grant { ticket }| Answer::Granted(ticket)),
        Call::Leave(ticket) => core
            .leave(Grant { ticket })
            .map(|task| Answer::Running(task))
            .map_err(spent),
        Call::Finish => core.finish().map(|task| Answer::Running(task)),
    };
    told.unwrap_or_else(|refusal| Answer::Refused(refusal))
}

/// Makes the calls in their order, and writes down what each answers.
fn run<W: Queue<Entry = Waiting>, R: Queue<Entry = Released>>(
    core: &mut Core<W, R>,
    calls: &[Call],
    answers: &mut [Answer],
)
    requires { length calls.now ≤ length answers.old }
    ensures live { core.new.live ≡ core.old.live }
    ensures table { core.new.records ≡ core.old.records }
    ensures shut { core.old.live ≡ false → core.new ≡ core.old }
    ensures value { answers.new ≡ answers_from core.old.live (table_of core.old.records) calls.now (view W.Queue R.Queue core.old) ++ drop (length calls.now) answers.old }
    ensures after { view W.Queue R.Queue core.new ≡ state_from core.old.live (table_of core.old.records) calls.now (view W.Queue R.Queue core.old) }
{
    // By number: of what `answers.iter_mut().zip(calls)` lends, nothing is known after the loop.
    for (i, call) in calls.iter().enumerate() {
        answers[i] = make(core, *call);
    }
}

/// Makes a core from a pass and two queues, makes the calls on it in their order, writes down what each answers, and gives the core back.
///
/// Of the grants of its own entries only the numbers in the answers are left: a section that is open when replay ends stays open until its job's deadline, unless `leave` is given a grant of another core with the same numbers.
///
/// Whatever the calls and whichever the queues: every answer, and the state after, is that of the machine given the same calls alone, and at the
/// start and after each call everything that is promised of runs holds of it. Where the queues cannot serve the table, every answer is that the core is
/// shut, and the core holds the queues as they were. Where there is less room than calls, no core is made, and what was given is handed back.
pub fn replay<'a, W: Queue<Entry = Waiting>, R: Queue<Entry = Released>>(
    pass: Pass<'a>,
    waiting: W,
    released: R,
    calls: &[Call],
    answers: &mut [Answer],
) -> Result<Core<W, R>, NoRoom<'a, W, R>>
    requires pass { Passed pass }
    requires ordered { W.ordered waiting_order waiting × R.ordered released_order released }
    ensures room { is_ok result ≡ nat_le (length calls.now) (length answers.old) }
    ensures back { IfErr result (λ b. (pass_table b.pass ≡ pass_table pass.entry) × (b.pass.idle ≡ pass.entry.idle) × (b.waiting ≡ waiting) × (b.released ≡ released) × (answers.new ≡ answers.old)) }
    ensures table { IfOk result (λ core. table_of core.records ≡ pass_table pass.entry) }
    ensures live { IfOk result (λ core. core.live ≡ ready (pass_table pass.entry) (W.list waiting) (R.list released) (W.capacity waiting) (R.capacity released)) }
    ensures ran { IfOk result (λ core. core.live ≡ true → Ran (pass_table pass.entry) calls.now answers.new answers.old (view W.Queue R.Queue core)) }
    ensures shut { IfOk result (λ core. core.live ≡ false → AllShut calls.now answers.new answers.old × (core.inner ≡ fresh) × (core.waiting ≡ waiting) × (core.released ≡ released)) }
{
    if answers.len() < calls.len() {
        return Err(NoRoom {
            pass,
            waiting,
            released,
        });
    }
    let mut core = Core::new(pass, waiting, released);
    run(&mut core, calls, answers);
    Ok(core)
}
