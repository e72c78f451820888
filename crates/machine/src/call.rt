//! What a run is made of: calls, and what each of them answers.
ghost use Rattle.std.specs.Prelude.{◌≡◌, Some};
ghost use Rattle.machine.specs.Answer.{refusal_number, shown_numbers};
ghost use Rattle.table.specs.Answer.{spaced};

use std::fmt;

/// The three numbers of a grant: its task, its section, and how many entries were made before it.
#[derive(Clone, Copy, Debug, PartialEq)]
pub struct Ticket {
    pub task: usize,
    pub section: usize,
    pub serial: u32,
}

/// A call to the machine. A leave may name any grant.
#[derive(Clone, Copy, Debug, PartialEq)]
pub enum Call {
    /// The clock goes on to an instant.
    Advance(u64),
    /// The running task enters a section.
    Enter(usize),
    /// The section of a grant is left.
    Leave(Ticket),
    /// The running job is done.
    Finish,
}

/// Why a call is refused. A refused call changes nothing.
#[derive(Clone, Copy, Debug, PartialEq)]
pub enum Refusal {
    /// The instant lies before the clock.
    Past,
    /// The instant is past the last that the clock can show.
    Far,
    /// The instant is past what is due, which is returned.
    BeyondDue(u64),
    /// No task runs.
    NothingRuns,
    /// The section is not open to entry.
    NotEnterable,
    /// As many entries were made as can be counted.
    TooManyEntries,
    /// The grant is open, but not the running task's innermost; it is returned.
    NotInnermost(Ticket),
    /// The grant is not open; it is spent.
    NotOpen,
    /// The running job has a section open.
    StillOpen,
}

impl Refusal {
    /// The number of the refusal, 14 to 22; of several reasons, the one with the lowest number is the refusal.
    pub fn number(&self) -> u32
        ensures { result ≡ refusal_number self.now }
    {
        // By cases: a refusal that carries a value has no discriminant.
        match self {
            Refusal::Past => 14,
            Refusal::Far => 15,
            Refusal::BeyondDue(_) => 16,
            Refusal::NothingRuns => 17,
            Refusal::NotEnterable => 18,
            Refusal::TooManyEntries => 19,
            Refusal::NotInnermost(_) => 20,
            Refusal::NotOpen => 21,
            Refusal::StillOpen => 22,
        }
    }
}

/// The number of a refusal, and behind it, one space apart, the instant that is due where it has one. A grant that is handed back is not written.
impl fmt::Display for Refusal {
    ghost output = { λ r. Some (spaced (shown_numbers r)) };

    fn fmt<W: fmt::Write>(&self, f: &mut fmt::Formatter<W>) -> fmt::Result {
        let number = self.number();
        match *self {
            Refusal::BeyondDue(due) => write!(f, "{number} {due}"),
            _ => write!(f, "{number}"),
        }
    }
}

/// What a call answers, where `R` says why a call is refused.
#[derive(Clone, Copy, Debug, PartialEq)]
pub enum Answer<R = Refusal> {
    /// An advance: how many jobs expired, how many were released, and the running task, or 32 for none.
    Advanced((u32, u32, u32)),
    /// An entry: the grant.
    Granted(Ticket),
    /// A leave or a finish: the running task, or 32 for none.
    Running(u32),
    /// A refusal.
    Refused(R),
}
