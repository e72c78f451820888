//! What the tasks of a table ask for by an instant, and how long a section can hold them up.
ghost use Rattle.std.specs.Prelude.{◌≡◌, ◌+◌, ◌-◌, ◌/◌, ◌≤◌};
ghost use Rattle.admission.specs.Demand.{demand, workload, blocks, blocking};
ghost use Rattle.admission.specs.Facts.{Timed};

use crate::check::Sound;
use crate::instant::Instant;
use table::levels::deadline_of;
use table::records::{SectionRecord, TaskRecord};

/// How many jobs of a task count by `t`, where the first counts at `first`, and one more each period from there on.
pub(crate) fn jobs(task: &TaskRecord, first: u32, t: Instant) -> u32
    requires timed { Timed task.now }
    requires within { first ≤ task.now.period }
    ensures { result ≡ (t.ticks + task.now.period - first) / task.now.period }
{
    (t.ticks + task.period - first) / task.period
}

impl Sound<'_> {
    /// What the jobs of all tasks that are due by `t` ask for.
    pub(crate) fn demand_by(&self, t: Instant) -> u32
        ensures { result ≡ demand self.now.tasks.now t.ticks }
    {
        self.tasks
            .iter()
            .map(|task| task.cost * jobs(task, task.deadline, t))
            .sum()
    }

    /// What the jobs of all tasks that are released before `t` ask for.
    pub(crate) fn workload_by(&self, t: Instant) -> u32
        ensures { result ≡ workload self.now.tasks.now t.ticks }
    {
        self.tasks
            .iter()
            .map(|task| task.cost * jobs(task, 1, t))
            .sum()
    }

    /// Whether a section can hold up jobs that are due by `t`: its level is at most `t`, and its own task's D is past `t`. Where there
    /// is no level, it counts as above every number.
    fn can_block(&self, section: &SectionRecord, t: Instant) -> bool
        ensures { result ≡ blocks self.now.tasks.now section.now t.ticks }
    {
        section.level.is_some_and(|level| level <= t.ticks)
            && deadline_of(self.tasks, section.task).is_some_and(|deadline| t.ticks < deadline)
    }

    /// The greatest length of a section that can hold up jobs that are due by `t`; 0 if none can.
    pub(crate) fn blocking_at(&self, t: Instant) -> u32
        ensures { result ≡ blocking self.now.tasks.now self.now.sections.now t.ticks }
    {
        self.sections
            .iter()
            .filter(|section| self.can_block(section, t))
            .map(|section| section.length)
            .max()
            .unwrap_or(0)
    }
}
