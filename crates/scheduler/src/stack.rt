//! The core's table of stacked tasks, and what else it keeps of its own.
ghost use Rattle.std.specs.Prelude.{◌≡◌, ◌+◌, ◌<◌, ◌≤◌, MatchOption, length};
ghost use Rattle.table.specs.Limits.{most_tasks, deepest};
ghost use Rattle.machine.specs.Step.{most_entries, opens_for, among_open};
ghost use Rattle.scheduler.specs.View.{open_of, opens_of};
ghost use Rattle.scheduler.specs.Moves.{job_with, fresh, top_of, most, pushed, popped, expired_by, finished_by, lapsed_by, released_by, entered_by, left_by, with_clock, is_due, place_from, running_of, deadline_of, last_open, innermost_for};

use crate::answer::NOBODY;
use crate::question::{Counts, Place};
use arrayvec::ArrayVec;
use machine::call::Ticket;
use std::array;
use std::marker::Model;
use table::limits::{DEEPEST, MOST_TASKS};

/// A section that is open, with the serial of the entry that opened it.
#[derive(Clone, Copy, Default)]
pub struct OpenSection {
    pub section: u32,
    pub serial: u32,
}

impl OpenSection {
    /// Whether it is the section that a grant names.
    fn is_for(&self, ticket: Ticket) -> bool
        ensures { result ≡ opens_for ticket (open_of self.now) }
    {
        self.section as usize == ticket.section && self.serial == ticket.serial
    }
}

/// A job on the stack: its task, its absolute deadline, and its open sections, the outermost first.
#[derive(Drop)]
pub struct StackRecord {
    pub task: usize,
    pub deadline: u64,
    pub opened: ArrayVec<OpenSection, DEEPEST>,
}

impl StackRecord {
    /// A job of a task, with nothing open.
    fn new(task: usize, deadline: u64) -> StackRecord
        ensures { result ≡ job_with task deadline }
    {
        StackRecord {
            task,
            deadline,
            opened: ArrayVec::new(),
        }
    }

    /// The innermost open section.
    pub(crate) fn innermost(&self) -> Option<&OpenSection>
        ensures { MatchOption result (length self.now.opened.items ≡ 0) (λ o. (0 < length self.now.opened.items) × (o.now ≡ last_open self.now)) }
    {
        self.opened.last()
    }

    /// Whether the section of a grant is among the open ones.
    pub(crate) fn holds(&self, ticket: Ticket) -> bool
        ensures { result ≡ among_open ticket (opens_of self.now.opened.items) }
    {
        self.opened.iter().any(|open| open.is_for(ticket))
    }
}

/// Where a task is; on the stack, how many jobs are below its own.
#[derive(Clone, Copy)]
pub enum Spot {
    Waiting,
    Released,
    Stacked(usize),
}

impl From<Spot> for Place {
    ghost from_gives = { λ spot place. place ≡ place_from spot };

    fn from(spot: Spot) -> Place {
        match spot {
            Spot::Waiting => Place::Waiting,
            Spot::Released => Place::Released,
            Spot::Stacked(_) => Place::Stacked,
        }
    }
}

/// What the core keeps beside its records and its queues. The top of the stack, at `depth - 1`, runs.
#[derive(Drop)]
pub struct Inner {
    pub clock: u64,
    pub depth: usize,
    pub stack: [StackRecord; MOST_TASKS],
    pub spots: [Spot; MOST_TASKS],
    pub counts: Counts,
}

impl Model for Inner {
    ghost use Rattle.std.specs.Prelude.{◌≤◌};
    ghost use Rattle.table.specs.Limits.{most_tasks};
    ghost use Rattle.scheduler.specs.Kept.{Kept};

    ghost Value = { Kept };

    ghost view = { λ i. record { clock = i.clock; depth = i.depth; stack = i.stack; spots = i.spots; counts = i.counts } };

    ghost invariant = { λ i. i.depth ≤ most_tasks };
}

impl Inner {
    /// What a new core keeps: the clock at 0, an empty stack, and nothing counted.
    pub(crate) fn new() -> Inner
        ensures { result ≡ fresh }
    {
        Inner {
            clock: 0,
            depth: 0,
            stack: array::from_fn(|_| StackRecord::new(0, 0)),
            spots: [Spot::Waiting; MOST_TASKS],
            counts: Counts::default(),
        }
    }

    /// The running job.
    pub(crate) fn top(&self) -> Option<&StackRecord>
        ensures { MatchOption result (self.now.depth ≡ 0) (λ job. (0 < self.now.depth) × (job.now ≡ top_of self.now)) }
    {
        self.stack[..self.depth].last()
    }

    /// Puts a job onto the stack.
    pub(crate) fn push(&mut self, task: usize, deadline: u64)
        requires { (self.old.depth < most_tasks) × (task < most_tasks) }
        ensures { self.new ≡ pushed self.old task deadline }
    {
        let depth = self.depth;
        self.stack[depth] = StackRecord::new(task, deadline);
        self.spots[task] = Spot::Stacked(depth);
        self.depth = depth + 1;
    }

    /// Takes the running job off the stack, so that its task waits; answers how many sections it had open.
    fn pop(&mut self) -> usize
        requires { (0 < self.old.depth) × ((top_of self.old).task < most_tasks) }
        ensures open { result ≡ length (top_of self.old).opened.items }
        ensures after { self.new ≡ popped self.old }
    {
        self.depth -= 1;
        let job = &self.stack[self.depth];
        let (task, open) = (job.task, job.opened.len());
        self.spots[task] = Spot::Waiting;
        open
    }

    /// The running job ends at its deadline: it comes off the stack, its open sections are taken back, and its task waits.
    pub(crate) fn expire(&mut self)
        requires top { (0 < self.old.depth) × ((top_of self.old).task < most_tasks) }
        requires counts { (self.old.counts.expiries < most) × (self.old.counts.taken + length (top_of self.old).opened.items ≤ most_entries) }
        ensures { self.new ≡ expired_by self.old }
    {
        self.counts.expiries += 1;
        self.counts.taken += self.pop() as u32;
    }

    /// The running job is done: it comes off the stack, and its task waits.
    pub(crate) fn finish(&mut self)
        requires top { (0 < self.old.depth) × ((top_of self.old).task < most_tasks) }
        requires counts { self.old.counts.finishes < most }
        ensures { self.new ≡ finished_by self.old }
    {
        self.counts.finishes += 1;
        self.pop();
    }

    /// A released job ends at its deadline, and its task waits.
    pub(crate) fn lapse(&mut self, task: usize)
        requires { (task < most_tasks) × (self.old.counts.expiries < most) }
        ensures { self.new ≡ lapsed_by self.old task }
    {
        self.counts.expiries += 1;
        self.spots[task] = Spot::Waiting;
    }

    /// A task is released.
    pub(crate) fn release(&mut self, task: usize)
        requires { (task < most_tasks) × (self.old.counts.releases < most) }
        ensures { self.new ≡ released_by self.old task }
    {
        self.counts.releases += 1;
        self.spots[task] = Spot::Released;
    }

    /// The running job enters a section; answers the serial of the entry.
    pub(crate) fn enter(&mut self, section: u32) -> u32
        requires top { (0 < self.old.depth) × (length (top_of self.old).opened.items < deepest) }
        requires counts { self.old.counts.entries < most_entries }
        ensures serial { result ≡ self.old.counts.entries }
        ensures after { self.new ≡ entered_by self.old section }
    {
        let serial = self.counts.entries;
        let top = &mut self.stack[self.depth - 1];
        top.opened.push(OpenSection { section, serial });
        self.counts.entries = serial + 1;
        serial
    }

    /// The running job leaves its innermost section.
    pub(crate) fn leave(&mut self)
        requires top { (0 < self.old.depth) × (0 < length (top_of self.old).opened.items) }
        requires counts { self.old.counts.leaves < most_entries }
        ensures { self.new ≡ left_by self.old }
    {
        let top = &mut self.stack[self.depth - 1];
        top.opened.pop();
        self.counts.leaves += 1;
    }

    /// The clock goes on to an instant.
    pub(crate) fn set_clock(&mut self, t: u64)
        ensures { self.new ≡ with_clock self.old t }
    {
        self.clock = t;
    }

    /// Whether the running job is due at an instant.
    pub(crate) fn is_due(&self, t: u64) -> bool
        ensures { result ≡ is_due self.now t }
    {
        self.top().is_some_and(|job| job.deadline == t)
    }

    /// The running task, or 32 for none.
    pub(crate) fn running(&self) -> u32
        requires { 0 < self.now.depth → (top_of self.now).task < most_tasks }
        ensures { result ≡ running_of self.now }
    {
        match self.top() {
            Some(job) => job.task as u32,
            None => NOBODY,
        }
    }

    /// The absolute deadline of the running job.
    pub(crate) fn deadline(&self) -> Option<u64>
        ensures { result ≡ deadline_of self.now }
    {
        self.top().map(|job| job.deadline)
    }

    /// Whether a grant is the running job's innermost.
    pub(crate) fn is_innermost(&self, ticket: Ticket) -> bool
        ensures { result ≡ innermost_for ticket self.now }
    {
        let Some(job) = self.top() else {
            return false;
        };
        let Some(open) = job.innermost() else {
            return false;
        };
        job.task == ticket.task && open.is_for(ticket)
    }
}
