//! The core's own copies of the records that were admitted.
ghost use Rattle.std.specs.Prelude.{◌≡◌, ◌≤◌, length};
ghost use Rattle.scheduler.specs.Copies.{Copied};

use crate::stack::StackRecord;
use arrayvec::ArrayVec;
use queue::{Released, Waiting};
use table::limits::{MOST_SECTIONS, MOST_TASKS};
use table::records::{SectionRecord, TaskRecord};

/// Copies of the records, which break no rule.
#[derive(Drop)]
pub struct Records {
    pub tasks: ArrayVec<TaskRecord, MOST_TASKS>,
    pub sections: ArrayVec<SectionRecord, MOST_SECTIONS>,
    ghost copied: { Copied tasks sections },
}

/// A copy of a slice for which there is room.
fn copied<T: Copy + Default, const N: usize>(from: &[T]) -> ArrayVec<T, N>
    requires { length from.now ≤ N }
    ensures { result.items ≡ from.now }
{
    ArrayVec::try_from(from).unwrap()
}

impl Records {
    ghost use Rattle.std.specs.Prelude.{◌+◌, ◌<◌, true};
    ghost use Rattle.table.specs.Limits.{largest};
    ghost use Rattle.admission.specs.Sound.{sound};
    ghost use Rattle.machine.specs.State.{section_at, inherited};
    ghost use Rattle.machine.specs.Step.{last_instant, release_of};
    ghost use Rattle.scheduler.specs.View.{table_of, opens_of, job_of};
    ghost use Rattle.scheduler.specs.Moves.{enterable_at};
    ghost use Rattle.scheduler.specs.Steady.{chained, latest, next_of};

    /// Copies of the records of a table that breaks no rule.
    pub(crate) fn copy(tasks: &[TaskRecord], sections: &[SectionRecord]) -> Records
        requires { sound tasks.now sections.now ≡ true }
        ensures { table_of result ≡ record { tasks = tasks.now; sections = sections.now } }
    {
        Records {
            tasks: copied(tasks),
            sections: copied(sections),
        }
    }

    /// Whether a section is open to entry: it is of the job's task, and lies directly in its innermost open section, or is outermost if none is open.
    pub(crate) fn enterable(&self, section: usize, job: &StackRecord) -> bool
        ensures { result ≡ enterable_at self.now section job.now }
    {
        let Some(record) = self.sections.get(section) else {
            return false;
        };
        let innermost = job.innermost().map(|open| open.section as usize);
        record.task == job.task && record.around == innermost
    }

    /// The level of a section.
    fn level(&self, section: u32) -> Option<u32>
        requires { section < length self.now.sections.items }
        ensures { result ≡ (section_at (table_of self.now) section).level }
    {
        self.sections[section as usize].level
    }

    /// The inherited deadline of a stacked job: the least of its task's D and the levels of its open sections.
    pub(crate) fn inherited(&self, job: &StackRecord) -> u32
        requires known { job.now.task < length self.now.tasks.items }
        requires nested { chained (table_of self.now) (opens_of job.now.opened.items) ≡ true }
        ensures { result ≡ inherited (table_of self.now) (job_of job.now) }
    {
        let mut least = self.tasks[job.task].deadline;
        for open in job.opened.as_slice() {
            least = self
                .level(open.section)
                .map_or(least, |level| least.min(level));
        }
        least
    }

    /// The entry with which a task waits once its job with an absolute deadline has ended: its next release is a period after its last.
    pub(crate) fn next_release(&self, task: usize, deadline: u64) -> Waiting
        requires { (task < length self.now.tasks.items) × (deadline ≤ latest) }
        ensures value { result ≡ record { release = next_of (table_of self.now) task deadline; task = task } }
        ensures near { result.release ≤ latest + largest }
    {
        let record = &self.tasks[task];
        let released = deadline.saturating_sub(record.deadline as u64);
        Waiting {
            release: released + record.period as u64,
            task,
        }
    }

    /// The entry with which a waiting task is released.
    pub(crate) fn released(&self, w: Waiting) -> Released
        requires { (w.task < length self.now.tasks.items) × (w.release ≤ last_instant) }
        ensures value { result ≡ release_of (table_of self.now) w }
        ensures near { result.deadline ≤ latest }
    {
        let relative = self.tasks[w.task].deadline;
        Released {
            deadline: w.release + relative as u64,
            relative,
            task: w.task,
        }
    }
}
