//! Lists a task table from standard input, with its verdict.

#![tactic(auto)]

use admission::admit::admit;
use std::io::Read;
use std::str::from_utf8;
use std::{fmt, io};
use table::limits::{LONGEST_TEXT, MOST_SECTIONS, MOST_TASKS};
use table::read::read;
use table::records::{SectionRecord, TaskRecord};

/// A number that may be missing, written `-` where it is.
#[derive(Clone, Copy)]
struct OrDash(Option<u32>);

impl fmt::Display for OrDash {
    fn fmt<W: fmt::Write>(&self, f: &mut fmt::Formatter<W>) -> fmt::Result {
        match self.0 {
            Some(number) => write!(f, "{number}"),
            None => write!(f, "-"),
        }
    }
}

/// The name of the task with a number, as it stands in the text.
fn name<'a>(text: &'a [u8], tasks: &[TaskRecord], task: usize) -> &'a str {
    tasks
        .get(task)
        .and_then(|t| from_utf8(t.name.part_of(text)).ok())
        .unwrap_or("")
}

/// Prints a line for each section: its number, its task's name, its level and its length.
fn list(
    rt: &HostRuntime,
    text: &[u8],
    tasks: &[TaskRecord],
    sections: &[SectionRecord],
) -> io::Result<()> {
    println!(rt; "section task level length")?;
    for (number, section) in sections.iter().enumerate() {
        let name = name(text, tasks, section.task);
        let level = OrDash(section.level);
        println!(rt; "{number} {name} {level} {}", section.length)?;
    }
    Ok(())
}

/// Judges a table, and prints its listing and its idle instant, or the refusal alone.
fn judge<'t>(
    rt: &HostRuntime,
    text: &[u8],
    tasks: &'t [TaskRecord],
    sections: &'t [SectionRecord],
) -> io::Result<()> {
    match admit(tasks, sections) {
        Ok(pass) => {
            list(rt, text, pass.tasks(), pass.sections())?;
            println!(rt; "admitted idle {}", pass.idle())
        }
        Err(refusal) => println!(rt; "refused {refusal}"),
    }
}

/// Reads a text from standard input, at most one byte more than the longest, and answers for it.
fn run(rt: &HostRuntime) -> io::Result<()> {
    let mut text = Vec::new(rt.alloc());
    rt.stdin()
        .take(LONGEST_TEXT as u64 + 1)
        .read_to_end(&mut text)?;
    let mut tasks = [TaskRecord::EMPTY; MOST_TASKS];
    let mut sections = [SectionRecord::EMPTY; MOST_SECTIONS];
    match read(text.as_slice(), &mut tasks, &mut sections) {
        Ok(counts) => judge(
            rt,
            text.as_slice(),
            &tasks[..counts.tasks],
            &sections[..counts.sections],
        ),
        Err(refusal) => println!(rt; "refused {refusal}"),
    }
}

fn main(rt: HostRuntime) -> io::Result<()> {
    run(&rt)
}
