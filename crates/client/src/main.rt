//! Firmware in small: a table is read and admitted, a core is made from the pass and two queues, and is told what happens.
//!
//! The two queues are of two kinds. No proof file stands beside this program: a core asks its caller for a pass and two ordered queues when it is made, and for nothing after.

#![tactic(auto)]

ghost use Rattle.admission.specs.Passed.{Passed};

use admission::admit::admit;
use admission::pass::Pass;
use queue::{HeapQueue, ListQueue, Queue, Released, Waiting};
use scheduler::answer::{NOBODY, Refusal};
use scheduler::grant::LeaveRefusal;
use scheduler::run_core::Core;
use std::io;
use std::mem::size_of;
use table::limits::{MOST_SECTIONS, MOST_TASKS};
use table::read::read;
use table::records::{SectionRecord, TaskRecord};

/// Two tasks that share a resource.
const TABLE: &[u8] = b"fast: D=4 T=10 C=2 1{ a }\nslow: D=20 T=20 C=8 2{ a }\n";

/// What an advance answered.
fn tell(rt: &HostRuntime, t: u64, told: Result<(u32, u32, u32), Refusal>) -> io::Result<()> {
    match told {
        Ok((expiries, releases, running)) => {
            println!(rt; "at {t}: {expiries} expired, {releases} released, {running} runs")
        }
        Err(refusal) => println!(rt; "at {t}: refused {}", refusal.number()),
    }
}

/// Enters a section and leaves it at an instant, late or not: that `advance` is refused is not told. A grant that is handed back goes to whoever called: it cannot
/// be let go here. Where the section is not entered it answers as where none runs.
/// `main` does not call this, since a program that ends could not dispose of such a grant; firmware does not end.
fn visit<W: Queue<Entry = Waiting>, R: Queue<Entry = Released>>(
    core: &mut Core<W, R>,
    section: usize,
    until: u64,
) -> Result<u32, LeaveRefusal> {
    let Ok(grant) = core.enter(section) else {
        return Ok(NOBODY);
    };
    let _ = core.advance(until);
    core.leave(grant)
}

/// Runs both tasks for ten ticks, and says what is due and where the first is.
fn run(rt: &HostRuntime, pass: Pass) -> io::Result<()>
    requires { Passed pass }
{
    let mut ws = [Waiting::EMPTY; MOST_TASKS];
    let mut rs = [Released::EMPTY; MOST_TASKS];
    let mut core = Core::new(pass, ListQueue::new(&mut ws), HeapQueue::new(&mut rs));
    tell(rt, 0, core.advance(0))?;
    tell(rt, 2, core.advance(2))?;
    if let Ok(running) = core.finish() {
        println!(rt; "finished: {running} runs")?;
    }
    tell(rt, 30, core.advance(30))?;
    tell(rt, 10, core.advance(10))?;
    if let (Ok(clock), Ok(Some(due))) = (core.clock(), core.due()) {
        println!(rt; "clock {clock}, due {due}")?;
    }
    if let (Ok(Some(fast)), Ok(None)) = (core.place(0), core.place(2)) {
        println!(rt; "fast is {fast:?}, and there is no task 2")?;
    }
    Ok(())
}

fn main(rt: HostRuntime) -> io::Result<()> {
    let size = size_of::<Core<ListQueue<Waiting>, HeapQueue<Released>>>();
    println!(rt; "a core takes {size} bytes, with its two queues")?;
    let mut tasks = [TaskRecord::EMPTY; MOST_TASKS];
    let mut sections = [SectionRecord::EMPTY; MOST_SECTIONS];
    let Ok(counts) = read(TABLE, &mut tasks, &mut sections) else {
        return Ok(());
    };
    let Ok(pass) = admit(&tasks[..counts.tasks], &sections[..counts.sections]) else {
        return Ok(());
    };
    run(&rt, pass)
}
