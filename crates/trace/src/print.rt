//! What is printed: the answer of each call behind its line, and at the end what the questions answer.
use crate::script::Line;
use machine::call::Ticket;
use scheduler::answer::Answer;
use scheduler::question::{Counts, Place, Running};
use std::io::Write;
use std::str::from_utf8;
use std::{fmt, io};
use table::limits::MOST_TASKS;
use table::records::TaskRecord;

/// The text of a table and its tasks, which have their names in it.
#[derive(Clone, Copy)]
pub struct Names<'a, 't> {
    pub text: &'a [u8],
    pub tasks: &'t [TaskRecord],
}

impl<'a> Names<'a, '_> {
    /// The name of the task with a number; `-` for a number that is no task's, as the one for none.
    fn of(&self, task: usize) -> &'a str {
        self.tasks
            .get(task)
            .and_then(|t| from_utf8(t.name.part_of(self.text)).ok())
            .unwrap_or("-")
    }
}

/// A number that may be missing, written `-` where it is.
#[derive(Clone, Copy)]
struct OrDash(Option<u64>);

impl fmt::Display for OrDash {
    fn fmt<W: fmt::Write>(&self, f: &mut fmt::Formatter<W>) -> fmt::Result {
        match self.0 {
            Some(number) => write!(f, "{number}"),
            None => write!(f, "-"),
        }
    }
}

/// Prints what a call answers, behind the call.
fn print_answer(rt: &HostRuntime, names: Names, answer: Answer) -> io::Result<()> {
    match answer {
        Answer::Advanced((expiries, releases, task)) => {
            let name = names.of(task as usize);
            println!(rt; ": expiries {expiries} releases {releases} running {name}")
        }
        Answer::Granted(ticket) => {
            let Ticket {
                task,
                section,
                serial,
            } = ticket;
            println!(rt; ": grant {task} {section} {serial}")
        }
        Answer::Running(task) => { println!(rt; ": running {}", names.of(task as usize)) }
        Answer::Refused(refusal) => println!(rt; ": refused {refusal}"),
    }
}

/// Prints each line as it was given, with what its call answers.
pub(crate) fn print_lines(
    rt: &HostRuntime,
    names: Names,
    lines: &[Line],
    answers: &[Answer],
) -> io::Result<()> {
    let mut answers = answers.iter();
    for line in lines {
        rt.stdout().write_all(line.given)?;
        if line.call.is_none() {
            println!(rt; ": not a call")?;
        } else if let Some(answer) = answers.next() {
            print_answer(rt, names, *answer)?;
        }
    }
    Ok(())
}

/// What the questions answer; by task number where each task is, and none where there is no such task.
#[derive(Drop)]
pub struct Standing {
    pub clock: u64,
    pub due: Option<u64>,
    pub places: [Option<Place>; MOST_TASKS],
    pub running: Option<Running>,
    pub counts: Counts,
}

/// Prints where each task is.
fn print_places(
    rt: &HostRuntime,
    names: Names,
    places: &[Option<Place>; MOST_TASKS],
) -> io::Result<()> {
    print!(rt; "places")?;
    for (task, place) in places.iter().enumerate() {
        if let Some(place) = place {
            print!(rt; " {} {place}", names.of(task))?;
        }
    }
    println!(rt)
}

/// Prints what was counted.
fn print_counts(rt: &HostRuntime, counts: Counts) -> io::Result<()> {
    let Counts {
        releases,
        finishes,
        expiries,
        entries,
        leaves,
        taken,
    } = counts;
    print!(rt; "releases {releases} finishes {finishes} expiries {expiries}")?;
    println!(rt; " entries {entries} leaves {leaves} taken {taken}")
}

/// Prints what the questions answer, in four lines.
pub(crate) fn print_standing(
    rt: &HostRuntime,
    names: Names,
    standing: &Standing,
) -> io::Result<()> {
    println!(rt; "clock {} due {}", standing.clock, OrDash(standing.due))?;
    print_places(rt, names, &standing.places)?;
    match standing.running {
        Some(
            Running {
                task,
                deadline,
                inherited,
            },
        ) => {
            let name = names.of(task);
            println!(rt; "running {name} deadline {deadline} inherited {inherited}")?;
        }
        None => println!(rt; "running -")?,
    }
    print_counts(rt, standing.counts)
}
