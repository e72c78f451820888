//! Why a queue refuses an entry.
ghost use Rattle.std.specs.Prelude.{◌≡◌};
ghost use Rattle.queue.specs.Answer.{number_of};

/// Why a queue refuses an entry.
#[derive(Clone, Copy, PartialEq, Eq, Debug)]
pub enum Refusal {
    /// The task is in the queue already, or its number is above 31.
    Present = 23,
    /// The queue holds as many entries as it can.
    Full = 24,
}

impl Refusal {
    /// The number of the refusal: 23 or 24.
    pub fn number(self) -> u8
        ensures { result ≡ number_of self }
    {
        self as u8
    }
}
