//! Reads a table from its text.
ghost use Rattle.std.specs.Prelude.{◌≡◌, ◌≤◌, ◌++◌, length, drop, IfOk, Ok};
ghost use Rattle.table.specs.Judged.{judged, lines_judged, room_for, nothing_read};
ghost use Rattle.table.specs.Lines.{lines_of};
ghost use Rattle.table.specs.Meaning.{Meaning, Exactly};
ghost use Rattle.table.specs.Record.{text_tasks, text_sections, filled};

use crate::check::check_lines;
use crate::fill::{write_levels, write_lines};
use crate::levels::letter_levels;
use crate::limits::{LONGEST_TEXT, MOST_SECTIONS, MOST_TASKS};
use crate::records::{Counts, SectionRecord, TaskRecord};
use crate::refusal::Refusal;

/// How many tasks and sections a table may have that is to go into so many records of each.
fn room_for(tasks: usize, sections: usize) -> Counts
    ensures { result ≡ room_for tasks sections }
{
    Counts {
        tasks: tasks.min(MOST_TASKS),
        sections: sections.min(MOST_SECTIONS),
    }
}

/// Judges a text that is to go into so many task records and section records: its counts, or why it is refused.
fn check_text(text: &[u8], tasks: usize, sections: usize) -> Result<Counts, Refusal>
    ensures value { result ≡ judged text.now tasks sections }
    ensures lines { IfOk result (λ c. lines_judged (room_for tasks sections) nothing_read (lines_of text.now) ≡ Ok c) }
{
    if text.len() > LONGEST_TEXT {
        return Err(Refusal::TooLong);
    }
    if text.is_empty() {
        return Err(Refusal::Empty);
    }
    check_lines(text, room_for(tasks, sections))
}

/// Writes the records of a text that is not refused, levels and all.
fn write_records(
    text: &[u8],
    counts: Counts,
    tasks: &mut [TaskRecord],
    sections: &mut [SectionRecord],
)
    requires { lines_judged (room_for (length tasks.old) (length sections.old)) nothing_read (lines_of text.now) ≡ Ok counts }
    ensures tasks { tasks.new ≡ text_tasks text.now ++ drop (length (text_tasks text.now)) tasks.old }
    ensures sections { sections.new ≡ text_sections text.now ++ drop (length (text_sections text.now)) sections.old }
{
    write_lines(text, tasks, sections);
    let written = &mut sections[..counts.sections];
    let levels = letter_levels(&tasks[..counts.tasks], written);
    write_levels(&levels, written);
}

/// Reads a text into task records and section records, and answers how many of each it has.
///
/// Nothing is written before the whole text is checked: on a refusal both slices are as they were. Records past the counts are as
/// they were in any case. What the answer means in terms of lines is part of the contract: a text is read exactly when it is what
/// one or more lines look like that break no rule.
pub fn read(
    text: &[u8],
    tasks: &mut [TaskRecord],
    sections: &mut [SectionRecord],
) -> Result<Counts, Refusal>
    ensures value { result ≡ judged text.now (length tasks.old) (length sections.old) }
    ensures tasks { tasks.new ≡ filled result (text_tasks text.now) tasks.old }
    ensures sections { sections.new ≡ filled result (text_sections text.now) sections.old }
    ensures meaning { Meaning text.now (room_for (length tasks.old) (length sections.old)) result }
    ensures exactly { Exactly text.now (room_for (length tasks.old) (length sections.old)) result }
    ensures bound { IfOk result (λ c. (c.tasks ≤ length tasks.old) × (c.sections ≤ length sections.old)) }
{
    let counts = check_text(text, tasks.len(), sections.len())?;
    write_records(text, counts, tasks, sections);
    Ok(counts)
}
