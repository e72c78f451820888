//! Many stored cases: each line of standard input is one, and what reading and admission answer is printed for it.
//!
//! A case is two numbers, how many task records and section records are lent, and a text with `\n`, `\\` and `\xHH` for the bytes that
//! a line cannot hold. The answers were made by a separate program (tools/oracle.py), which knows the rules and not this code.

#![tactic(auto)]

ghost use Rattle.std.specs.Prelude.{◌<◌, length, IfSome};
ghost use Rattle.std.specs.Str.Iter.{bytes_rest};

use admission::admit::admit;
use anyhow::Context;
use std::alloc::Global;
use std::io::{BufRead, BufReader};
use std::str::Bytes;
use std::{fmt, io};
use table::read::read;
use table::records::{SectionRecord, TaskRecord};

#[cfg(test)]
mod tests;

/// A number that may be missing, written `-` where it is.
#[derive(Clone, Copy)]
struct OrDash<T>(Option<T>);

impl<T: fmt::Display> fmt::Display for OrDash<T> {
    fn fmt<W: fmt::Write>(&self, f: &mut fmt::Formatter<W>) -> fmt::Result {
        match &self.0 {
            Some(number) => write!(f, "{number}"),
            None => write!(f, "-"),
        }
    }
}

/// The number that a digit in base 16 stands for, where its letters are small; 0 for any other byte, a capital too.
fn hex(b: u8) -> u8
    ensures { result < 16 }
{
    char::from(b)
        .to_digit(16)
        .filter(|_| !b.is_ascii_uppercase())
        .unwrap_or(0) as u8
}

/// The next byte that an escaped text stands for; none where it ends, or ends within an escape.
fn unescape(escaped: &mut Bytes) -> Option<u8>
    ensures { IfSome result (λ _. length (bytes_rest escaped.new) < length (bytes_rest escaped.old)) }
{
    match escaped.next()? {
        b'\\' => match escaped.next()? {
            b'n' => Some(b'\n'),
            b'x' => Some(16 * hex(escaped.next()?) + hex(escaped.next()?)),
            b => Some(b),
        },
        b => Some(b),
    }
}

/// The bytes that an escaped text stands for.
fn decode(heap: Global, escaped: &str) -> anyhow::Result<Vec<u8>> {
    let mut text = Vec::new(heap);
    let mut escaped = escaped.bytes();
    while let Some(b) = unescape(&mut escaped) {
        text.push(b)?;
    }
    Ok(text)
}

// A line of the stored answers, in their order of numbers: no way to write records as such, so not `Display`.
fn print_task(rt: &HostRuntime, t: &TaskRecord) -> io::Result<()> {
    let TaskRecord {
        name,
        deadline,
        period,
        cost,
        sections,
    } = *t;
    print!(rt;
        " | {} {} {deadline} {period} {cost} {} {}",
        name.first, name.count, sections.first, sections.count,
    )
}

fn print_section(rt: &HostRuntime, s: &SectionRecord) -> io::Result<()> {
    let SectionRecord {
        task,
        around,
        small,
        capital,
        length,
        level,
    } = *s;
    let (around, level) = (OrDash(around), OrDash(level));
    print!(rt; " | {task} {around} {small} {capital} {length} {level}")
}

/// Prints the records of a table that was read, and its verdict.
fn judge<'t>(
    rt: &HostRuntime,
    tasks: &'t [TaskRecord],
    sections: &'t [SectionRecord],
) -> anyhow::Result<()> {
    for t in tasks {
        print_task(rt, t)?;
    }
    for s in sections {
        print_section(rt, s)?;
    }
    match admit(tasks, sections) {
        Ok(pass) => println!(rt; " = admitted idle {}", pass.idle())?,
        Err(refusal) => println!(rt; " = refused {refusal}")?,
    }
    Ok(())
}

/// Reads a text into the records that are lent, and prints the answers.
fn try_records(
    rt: &HostRuntime,
    text: &[u8],
    tasks: &mut [TaskRecord],
    sections: &mut [SectionRecord],
) -> anyhow::Result<()> {
    match read(text, tasks, sections) {
        Ok(counts) => {
            print!(rt; "read {} {}", counts.tasks, counts.sections)?;
            judge(rt, &tasks[..counts.tasks], &sections[..counts.sections])
        }
        Err(refusal) => {
            println!(rt; "refused {refusal}")?;
            Ok(())
        }
    }
}

/// One case: so many records are lent for a text.
fn try_text(rt: &HostRuntime, tasks: usize, sections: usize, text: &[u8]) -> anyhow::Result<()> {
    let mut task_records = [TaskRecord::EMPTY; 40];
    let mut section_records = [SectionRecord::EMPTY; 70];
    try_records(
        rt,
        text,
        &mut task_records[..tasks.min(40)],
        &mut section_records[..sections.min(70)],
    )
}

fn try_line(rt: &HostRuntime, line: &str) -> anyhow::Result<()> {
    let (tasks, rest) = line.split_once(' ').context("no count of tasks")?;
    let (sections, text) = rest.split_once(' ').context("no count of sections")?;
    let text = decode(rt.alloc(), text)?;
    try_text(
        rt,
        tasks.parse::<usize>()?,
        sections.parse::<usize>()?,
        text.as_slice(),
    )
}

fn run(rt: &HostRuntime) -> anyhow::Result<()> {
    for line in BufReader::new(rt.alloc(), rt.stdin())?.lines(rt.alloc()) {
        try_line(rt, line?.as_str())?;
    }
    Ok(())
}

fn main(rt: HostRuntime) -> anyhow::Result<()> {
    run(&rt)
}
