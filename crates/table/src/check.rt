//! Checks a text before anything is written: which rule it breaks first, or how many tasks and sections it has.
ghost use Rattle.std.specs.Prelude.{◌≡◌, ◌+◌, ◌^◌, ◌<◌, ◌≤◌, length, Some, None, Ok, Err, MatchResult};
ghost use Rattle.table.specs.Judged.{line_judged, lines_judged, nothing_read};
ghost use Rattle.table.specs.Limits.{longest_text};
ghost use Rattle.table.specs.declared.refusal.Refusal.TheVariants.{Broken};
ghost use Rattle.table.specs.Lines.{lines_of};

use crate::form::form_fault;
use crate::head::head_of;
use crate::line::Cursor;
use crate::records::Counts;
use crate::refusal::{Place, Refusal, Rule};
use crate::rules::{
    Nested, count_sections, head_fault, number_fault, section_fault, tasks_fault, times_fault,
};

/// The rule that a line breaks first, and the place in the line, from 0.
#[derive(Clone, Copy)]
pub struct Fault {
    pub rule: Rule,
    pub place: usize,
}

impl Fault {
    /// Why a text is refused that has this fault in a line with this number.
    fn in_line(self, line: usize) -> Refusal
        requires { self.place + 1 < 2 ^ 64 }
        ensures { result ≡ Broken self.rule (record { line = line; byte = self.place + 1 }) }
    {
        let byte = self.place + 1;
        Refusal::Broken(self.rule, Place { line, byte })
    }
}

/// Refuses a line at the place of a rule's breach, and goes on where there is none.
fn keep(rule: Rule, breach: Option<usize>) -> Result<(), Fault>
    ensures { MatchResult result (λ _. breach ≡ None) (λ f. (breach ≡ Some f.place) × (f.rule ≡ rule)) }
{
    breach.map_or(Ok(()), |place| Err(Fault { rule, place }))
}

/// Judges a line, of which there is room for so many tasks and sections in all and so many of each stand before it: the count of
/// sections after it, or its fault.
fn check_line(line: &[u8], room: Counts, before: Counts) -> Result<usize, Fault>
    ensures { result ≡ line_judged room before line.now }
{
    keep(Rule::Form, form_fault(line))?;
    let head = head_of(line);
    let items = Cursor::at(line, head.body);
    keep(Rule::Number, head_fault(&head))?;
    keep(Rule::Number, number_fault(items))?;
    keep(Rule::Times, times_fault(&head))?;
    keep(Rule::Tasks, tasks_fault(room.tasks, before.tasks))?;
    keep(
        Rule::Sections,
        section_fault(items, room.sections, before.sections),
    )?;
    let nested = Nested::of(items);
    keep(Rule::Repeated, nested.repeat_fault())?;
    keep(Rule::Length, nested.length_fault(head.cost.ticks()))?;
    Ok(before.sections + count_sections(items))
}

/// Judges the lines of a text in order: how many tasks and sections they have, or the first fault and its place.
pub(crate) fn check_lines(text: &[u8], room: Counts) -> Result<Counts, Refusal>
    requires { length text.now ≤ longest_text }
    ensures { result ≡ lines_judged room nothing_read (lines_of text.now) }
{
    let mut read = Counts::default();
    for line in text.split_inclusive(|b| *b == b'\n') {
        let tasks = read.tasks + 1;
        let sections = check_line(line, room, read).map_err(|fault| fault.in_line(tasks))?;
        read = Counts { tasks, sections };
    }
    Ok(read)
}
