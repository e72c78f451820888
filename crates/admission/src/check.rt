//! The check that records break no rule of a table.
ghost use Rattle.std.specs.Prelude.{◌≡◌, ◌+◌, ◌^◌, ◌<◌, true, [], length, MatchResult};
ghost use Rattle.admission.specs.Sound.{times_sound, sections_sound, task_sound, tasks_sound, levels_sound, sound};
ghost use Rattle.admission.specs.Verdict.{Refused};

use crate::path::Path;
use crate::refusal::Refusal;
use table::levels::{letter_levels, section_level};
use table::limits::{LARGEST, MOST_SECTIONS, MOST_TASKS};
use table::records::{SectionRecord, TaskRecord};

/// Whether a task's run time, deadline and period are in order: 1 ≤ C ≤ D ≤ T ≤ 1,048,576.
fn times_sound(task: &TaskRecord) -> bool
    ensures { result ≡ times_sound task.now }
{
    1 <= task.cost
        && task.cost <= task.deadline
        && task.deadline <= task.period
        && task.period <= LARGEST
}

/// Whether the sections of a task keep the rules; the first of them has this number.
fn run_sound(owner: usize, cost: u32, first: usize, sections: &[SectionRecord]) -> bool
    requires { first + length sections.now < 2 ^ 64 }
    ensures { result ≡ sections_sound owner cost first [] sections.now }
{
    // A loop: each section changes what is open around the next.
    let mut path = Path::new();
    for (i, section) in sections.iter().enumerate() {
        if path.enter(owner, cost, first + i, section).is_none() {
            return false;
        }
    }
    true
}

/// Whether a task keeps the rules with the first of these sections, of which the first has the number `next`.
fn task_sound(number: usize, next: usize, task: &TaskRecord, rest: &[SectionRecord]) -> bool
    requires { next + length rest.now < 2 ^ 64 }
    ensures { result ≡ task_sound number next task.now rest.now }
{
    let count = task.sections.count;
    times_sound(task)
        && task.sections.first == next
        && count <= rest.len()
        && run_sound(number, task.cost, next, &rest[..count])
}

/// Whether the tasks keep the rules, and own the sections run by run.
fn tasks_sound(tasks: &[TaskRecord], sections: &[SectionRecord]) -> bool
    ensures { result ≡ tasks_sound 0 0 tasks.now sections.now }
{
    // A loop: where the sections of a task begin depends on all tasks before it.
    let mut next = 0;
    for (number, task) in tasks.iter().enumerate() {
        if !task_sound(number, next, task, &sections[next..]) {
            return false;
        }
        next += task.sections.count;
    }
    next == sections.len()
}

/// Whether each section holds the level that the table gives it.
fn levels_sound(tasks: &[TaskRecord], sections: &[SectionRecord]) -> bool
    ensures { result ≡ levels_sound tasks.now sections.now sections.now }
{
    let levels = letter_levels(tasks, sections);
    sections
        .iter()
        .all(|section| section.level == section_level(&levels, section))
}

/// Whether the records break no rule of a table.
#[tactic(auto, unfolding(crate::specs::Sound::sound))]
fn sound_records(tasks: &[TaskRecord], sections: &[SectionRecord]) -> bool
    ensures { result ≡ sound tasks.now sections.now }
{
    !tasks.is_empty()
        && tasks.len() <= MOST_TASKS
        && sections.len() <= MOST_SECTIONS
        && tasks_sound(tasks, sections)
        && levels_sound(tasks, sections)
}

/// Records that break no rule of a table, lent for reading.
#[derive(Clone, Copy)]
pub struct Sound<'a> {
    pub tasks: &'a [TaskRecord],
    pub sections: &'a [SectionRecord],
    ghost rules: { sound tasks.now sections.now ≡ true },
}

impl<'a> Sound<'a> {
    /// The records that are lent, unless they break a rule.
    pub(crate) fn new(
        tasks: &'a [TaskRecord],
        sections: &'a [SectionRecord],
    ) -> Result<Sound<'a>, Refusal>
        ensures { MatchResult result (λ s. (s.tasks.now ≡ tasks.now) × (s.sections.now ≡ sections.now)) (Refused tasks.now sections.now) }
    {
        if sound_records(tasks, sections) {
            Ok(Sound { tasks, sections })
        } else {
            Err(Refusal::Records)
        }
    }
}
