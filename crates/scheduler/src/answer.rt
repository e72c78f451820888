//! What a core answers to calls and questions: the machine's answers, and that the core is shut.
ghost use Rattle.std.specs.Prelude.{◌≡◌, Some};
ghost use Rattle.table.specs.Answer.{spaced};
ghost use Rattle.scheduler.specs.Answered.{refusal_number, shown_numbers};
ghost use Rattle.scheduler.specs.declared.answer.Refusal.TheVariants.{Machine};

use machine::call;
use std::fmt;

/// Why a core refuses a call or a question. A refused call changes nothing.
#[derive(Clone, Copy, Debug, PartialEq)]
pub enum Refusal {
    /// The core was never set to run; no call of it does anything.
    Shut,
    /// The machine refuses the call.
    Machine(call::Refusal),
}

impl Refusal {
    /// The number of the refusal: 13 where the core is shut, and else the machine's, 14 to 22.
    pub fn number(&self) -> u32
        ensures { result ≡ refusal_number self.now }
    {
        // By cases: the machine's refusal brings its own number.
        match self {
            Refusal::Shut => 13,
            Refusal::Machine(refusal) => refusal.number(),
        }
    }
}

impl From<call::Refusal> for Refusal {
    ghost from_gives = { λ refusal r. r ≡ Machine refusal };

    fn from(refusal: call::Refusal) -> Refusal {
        Refusal::Machine(refusal)
    }
}

/// The number of a refusal, and behind it, one space apart, the instant that is due where it has one. A grant that is handed back is not written.
impl fmt::Display for Refusal {
    ghost output = { λ r. Some (spaced (shown_numbers r)) };

    fn fmt<W: fmt::Write>(&self, f: &mut fmt::Formatter<W>) -> fmt::Result {
        let number = self.number();
        match self {
            Refusal::Shut => write!(f, "{number}"),
            Refusal::Machine(refusal) => write!(f, "{refusal}"),
        }
    }
}

/// The number that stands for no task where a call answers the running one. A rule of this project: 32 is what is answered, one more than any task.
pub const NOBODY: u32 = 32;

/// What a core answers to a call.
pub type Answer = call::Answer<Refusal>;
