//! Runs a table from standard input call by call, and prints what each call and at the end each question answers.
//!
//! Standard input holds a table, an empty line, then calls, one a line. All calls are made by one replay.

#![tactic(auto)]

ghost use Rattle.admission.specs.Passed.{Passed};
ghost use Rattle.queue.specs.Entries.{waiting_order, released_order};

use admission::admit::admit;
use admission::pass::Pass;
use anyhow::{anyhow, bail};
use print::{Names, Standing, print_lines, print_standing};
use queue::{HeapQueue, ListQueue, Queue, Released, Waiting};
use scheduler::answer::{Answer, Refusal};
use scheduler::replay::replay;
use scheduler::run_core::Core;
use script::{Queues, Script};
use std::io::Read;
use table::limits::{MOST_SECTIONS, MOST_TASKS};
use table::read::read;
use table::records::{SectionRecord, TaskRecord};

mod print;
mod script;
#[cfg(test)]
mod tests;

/// Bytes of an input: 16 MiB.
const LONGEST_INPUT: usize = 16_777_216;

/// Asks a core every question.
fn ask<W: Queue<Entry = Waiting>, R: Queue<Entry = Released>>(
    core: &Core<W, R>,
) -> Result<Standing, Refusal> {
    let mut places = [None; MOST_TASKS];
    for (task, place) in places.iter_mut().enumerate() {
        *place = core.place(task)?;
    }
    Ok(Standing {
        clock: core.clock()?,
        due: core.due()?,
        places,
        running: core.running()?,
        counts: core.counts()?,
    })
}

/// Makes the calls of a script on a new core over two queues, and prints what they and then the questions answer.
fn run_over<W: Queue<Entry = Waiting> + Drop, R: Queue<Entry = Released> + Drop>(
    rt: &HostRuntime,
    script: &Script,
    pass: Pass,
    waiting: W,
    released: R,
) -> anyhow::Result<()>
    requires pass { Passed pass }
    requires ordered { W.ordered waiting_order waiting × R.ordered released_order released }
{
    let (text, tasks) = (script.table, pass.tasks());
    let names = Names { text, tasks };
    let calls = script.calls(rt.alloc())?;
    let mut answers = vec![in rt.alloc(); Answer::Refused(Refusal::Shut); calls.len()]?;
    let core = replay(
        pass,
        waiting,
        released,
        calls.as_slice(),
        answers.as_mut_slice(),
    )
    .map_err(|_| anyhow!("there are more calls than places for answers"))?;
    print_lines(rt, names, script.lines.as_slice(), answers.as_slice())?;
    match ask(&core) {
        Ok(standing) => print_standing(rt, names, &standing)?,
        Err(refusal) => println!(rt; "refused {refusal}")?,
    }
    Ok(())
}

/// Makes the calls of a script over the queues that it chooses, with room for every task.
fn run_pass(rt: &HostRuntime, script: &Script, pass: Pass) -> anyhow::Result<()>
    requires { Passed pass }
{
    let mut waiting = [Waiting::EMPTY; MOST_TASKS];
    let mut released = [Released::EMPTY; MOST_TASKS];
    match script.queues {
        Queues::Lists => {
            let (w, r) = (ListQueue::new(&mut waiting), ListQueue::new(&mut released));
            run_over(rt, script, pass, w, r)
        }
        Queues::Heaps => {
            let (w, r) = (HeapQueue::new(&mut waiting), HeapQueue::new(&mut released));
            run_over(rt, script, pass, w, r)
        }
    }
}

/// Judges a table, and runs it, or prints the refusal alone.
fn judge<'t>(
    rt: &HostRuntime,
    script: &Script,
    tasks: &'t [TaskRecord],
    sections: &'t [SectionRecord],
) -> anyhow::Result<()> {
    match admit(tasks, sections) {
        Ok(pass) => run_pass(rt, script, pass),
        Err(refusal) => {
            println!(rt; "refused {refusal}")?;
            Ok(())
        }
    }
}

/// Reads the table of a script and judges it, or prints the refusal alone.
fn run_script(rt: &HostRuntime, script: &Script) -> anyhow::Result<()> {
    let mut tasks = [TaskRecord::EMPTY; MOST_TASKS];
    let mut sections = [SectionRecord::EMPTY; MOST_SECTIONS];
    match read(script.table, &mut tasks, &mut sections) {
        Ok(counts) => judge(
            rt,
            script,
            &tasks[..counts.tasks],
            &sections[..counts.sections],
        ),
        Err(refusal) => {
            println!(rt; "refused {refusal}")?;
            Ok(())
        }
    }
}

/// Reads standard input to its end, at most one byte more than the longest input, and runs it.
fn run(rt: &HostRuntime) -> anyhow::Result<()> {
    let mut input = Vec::new(rt.alloc());
    rt.stdin()
        .take(LONGEST_INPUT as u64 + 1)
        .read_to_end(&mut input)?;
    if input.len() > LONGEST_INPUT {
        bail!("the input has more than 16,777,216 bytes");
    }
    let script = Script::read(rt.alloc(), input.as_slice())?;
    run_script(rt, &script)
}

fn main(rt: HostRuntime) -> anyhow::Result<()> {
    run(&rt)
}
