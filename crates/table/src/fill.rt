//! Writes the records of a text that has been checked.
ghost use Rattle.std.specs.Prelude.{◌≡◌, ◌+◌, ◌≤◌, true, [], map, length, is_ok};
ghost use Rattle.table.specs.Head.{line_items};
ghost use Rattle.table.specs.Item.{left};
ghost use Rattle.table.specs.Judged.{lines_judged, room_for, nothing_read};
ghost use Rattle.table.specs.Lines.{lines_of};
ghost use Rattle.table.specs.Rule.{opens};
ghost use Rattle.table.specs.Record.{letters_from, section_of, sections_in, task_of, written, text_tasks, bare_sections, leveled};

use crate::head::head_of;
use crate::levels::section_level;
use crate::limits::{DEEPEST, LETTERS};
use crate::line::{Cursor, Item};
use crate::records::{SectionRecord, Span, TaskRecord};
use crate::rules::{Nested, count_sections};
use arrayvec::ArrayVec;

/// The letters of one section, as two sets.
#[derive(Clone, Copy, Default)]
pub struct Letters {
    pub small: u32,
    pub capital: u32,
}

/// The letters that come next.
fn letters_at(items: Cursor<'_>) -> Letters
    ensures { result ≡ letters_from 0 0 (left items.entry) }
{
    let mut letters = Letters::default();
    for item in items {
        match item {
            Item::Named(l) if l.capital => letters.capital |= l.bit,
            Item::Named(l) => letters.small |= l.bit,
            Item::Open(_) | Item::Close => break,
        }
    }
    letters
}

/// A section's record without its level.
fn section_of(task: usize, around: Option<usize>, letters: Letters, ticks: u32) -> SectionRecord
    ensures { result ≡ section_of task around letters ticks }
{
    SectionRecord {
        task,
        around,
        small: letters.small,
        capital: letters.capital,
        length: ticks,
        level: None,
    }
}

/// The record of a line's task, and the line's items.
fn task_of(line: &[u8], place: usize, first: usize) -> (TaskRecord, Cursor<'_>)
    ensures task { result.0 ≡ task_of place first line.now }
    ensures items { left result.1 ≡ line_items line.now }
{
    let head = head_of(line);
    let items = Cursor::at(line, head.body);
    let task = TaskRecord {
        name: Span {
            first: place,
            count: head.name,
        },
        deadline: head.deadline.ticks(),
        period: head.period.ticks(),
        cost: head.cost.ticks(),
        sections: Span {
            first,
            count: count_sections(items),
        },
    };
    (task, items)
}

/// Writes the records of a line's sections, from the place with the number `first` on, without their levels.
fn write_sections(nested: Nested<'_>, task: usize, first: usize, sections: &mut [SectionRecord])
    requires { first + opens (left nested.items) ≤ length sections.old }
    ensures { sections.new ≡ written first (sections_in task first [] (left nested.entry.items)) sections.old }
{
    let mut around = ArrayVec::<usize, DEEPEST>::new();
    let mut number = first;
    let mut items = nested.items();
    // No `for`: a copy of `items` reads the letters behind an opening brace.
    while let Some(item) = items.next() {
        match item {
            Item::Open(n) => {
                let letters = letters_at(items);
                sections[number] = section_of(task, around.last().copied(), letters, n.ticks());
                around.push(number);
                number += 1;
            }
            Item::Named(_) => {}
            Item::Close => {
                around.pop();
            }
        }
    }
}

/// Writes the records of all lines of a text, without levels.
pub(crate) fn write_lines(text: &[u8], tasks: &mut [TaskRecord], sections: &mut [SectionRecord])
    requires { is_ok (lines_judged (room_for (length tasks.old) (length sections.old)) nothing_read (lines_of text.now)) ≡ true }
    ensures tasks { tasks.new ≡ written 0 (text_tasks text.now) tasks.old }
    ensures sections { sections.new ≡ written 0 (bare_sections text.now) sections.old }
{
    let mut place = 0;
    let mut first = 0;
    for (task, line) in text.split_inclusive(|b| *b == b'\n').enumerate() {
        let (record, items) = task_of(line, place, first);
        // No zip with `tasks.iter_mut()`: a proof then knows nothing of what the slice holds at the end.
        tasks[task] = record;
        write_sections(Nested::of(items), task, first, sections);
        place += line.len();
        first += record.sections.count;
    }
}

/// Fills in the levels of sections, by the levels of the letters.
pub(crate) fn write_levels(levels: &[Option<u32>; LETTERS], sections: &mut [SectionRecord])
    ensures { sections.new ≡ map (leveled levels.now) sections.old }
{
    for section in sections.iter_mut() {
        section.level = section_level(levels, section);
    }
}
