//! What the questions answer.
ghost use Rattle.std.specs.Prelude.{Some};
ghost use Rattle.scheduler.specs.Words.{place_word};

use std::fmt;

/// Where a task is.
#[derive(Clone, Copy, Debug, PartialEq)]
pub enum Place {
    /// It waits for its next release.
    Waiting,
    /// It is released, and has not begun.
    Released,
    /// It has begun: it runs, or is preempted.
    Stacked,
}

/// The word for a place: `waiting`, `released` or `stacked`.
impl fmt::Display for Place {
    ghost output = { λ place. Some (place_word place) };

    fn fmt<W: fmt::Write>(&self, f: &mut fmt::Formatter<W>) -> fmt::Result {
        match self {
            Place::Waiting => write!(f, "waiting"),
            Place::Released => write!(f, "released"),
            Place::Stacked => write!(f, "stacked"),
        }
    }
}

/// The running task, with its absolute and its inherited deadline.
#[derive(Clone, Copy, Debug, PartialEq)]
pub struct Running {
    pub task: usize,
    pub deadline: u64,
    pub inherited: u32,
}

/// What was counted: jobs that were released, finished, and expired; sections that were entered, left, and taken back one by one.
#[derive(Clone, Copy, Debug, Default, PartialEq)]
pub struct Counts {
    pub releases: u64,
    pub finishes: u64,
    pub expiries: u64,
    pub entries: u32,
    pub leaves: u32,
    pub taken: u32,
}
