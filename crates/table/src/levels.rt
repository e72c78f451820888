//! Levels: how urgent the most urgent task is that a resource, or a section, can hold up.
ghost use Rattle.std.specs.Prelude.{◌≡◌, ◌<◌, Some, None};
ghost use Rattle.table.specs.Limits.{resources};
ghost use Rattle.table.specs.Level.{member, names, deadline_of, letter_level, letter_levels, least_level};

use crate::limits::LETTERS;
use crate::records::{SectionRecord, TaskRecord};
use std::array;

/// Whether a set of resources has the one with this number.
fn has(set: u32, resource: u32) -> bool
    requires { resource < resources }
    ensures { result ≡ member set resource }
{
    // The bound is asked for and no type of its own: three functions pass the number on, and it comes from a range.
    (set >> resource) % 2 == 1
}

/// Whether a section names a resource itself, in either case.
fn names_it(section: &SectionRecord, resource: u32) -> bool
    requires { resource < resources }
    ensures { result ≡ names section.now resource }
{
    has(section.small | section.capital, resource)
}

/// The relative deadline of the task with this number, if the table has it.
pub fn deadline_of(tasks: &[TaskRecord], task: usize) -> Option<u32>
    ensures { result ≡ deadline_of tasks.now task }
{
    tasks.get(task).map(|t| t.deadline)
}

/// The level of a letter: the least D of the tasks that name its resource, none if no task does.
fn letter_level(tasks: &[TaskRecord], sections: &[SectionRecord], resource: u32) -> Option<u32>
    requires { resource < resources }
    ensures { result ≡ letter_level tasks.now sections.now resource }
{
    sections
        .iter()
        .filter(|s| names_it(s, resource))
        .filter_map(|s| deadline_of(tasks, s.task))
        .min()
}

/// The level of each letter, `a` first.
pub fn letter_levels(tasks: &[TaskRecord], sections: &[SectionRecord]) -> [Option<u32>; LETTERS]
    ensures { result ≡ letter_levels tasks.now sections.now }
{
    array::from_fn(|resource| letter_level(tasks, sections, resource as u32))
}

/// The least of the levels of the resources that a section names itself; none for a section without letters.
pub fn section_level(levels: &[Option<u32>; LETTERS], section: &SectionRecord) -> Option<u32>
    ensures { result ≡ least_level levels.now 0 section.now }
{
    levels
        .iter()
        .enumerate()
        .filter(|(resource, _)| names_it(section, *resource as u32))
        .filter_map(|(_, level)| *level)
        .min()
}
