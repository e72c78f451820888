//! Why records are not admitted.
ghost use Rattle.std.specs.Prelude.{◌≡◌, Some};
ghost use Rattle.admission.specs.Answer.{refusal_number, returned};
ghost use Rattle.table.specs.Answer.{spaced};

use std::fmt;

/// A refusal of `admit`.
#[derive(Clone, Copy, Debug, PartialEq)]
pub enum Refusal {
    /// The records break a rule of the table.
    Records,
    /// By an instant more is asked for than fits: the least judged one, with demand plus blocking there.
    Demand(u32, u32),
    /// Everything fits up to the horizon, and no instant up to it is idle.
    Undecided,
}

impl Refusal {
    /// The number that a refusal goes by.
    pub fn number(&self) -> u32
        ensures { result ≡ refusal_number self.now }
    {
        // By cases: a refusal that carries numbers has no discriminant.
        match *self {
            Refusal::Records => 10,
            Refusal::Demand(..) => 11,
            Refusal::Undecided => 12,
        }
    }
}

/// The numbers that a refusal returns, one space apart: its own, then the instant and what is asked for by then where it has them.
impl fmt::Display for Refusal {
    ghost output = { λ r. Some (spaced (returned r)) };

    fn fmt<W: fmt::Write>(&self, f: &mut fmt::Formatter<W>) -> fmt::Result {
        let number = self.number();
        match *self {
            Refusal::Records | Refusal::Undecided => write!(f, "{number}"),
            Refusal::Demand(instant, asked) => write!(f, "{number} {instant} {asked}"),
        }
    }
}
