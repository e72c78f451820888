//! Why a text is not a table.
ghost use Rattle.std.specs.Prelude.{◌≡◌, Some};
ghost use Rattle.table.specs.Answer.{rule_number, refusal_number, returned, spaced};

use std::fmt;

/// A rule that each line of a text has to keep.
#[derive(Clone, Copy, Debug, PartialEq)]
pub enum Rule {
    /// The line has the form of a line.
    Form = 3,
    /// A number is 1 to 1,048,576, without a leading zero.
    Number = 4,
    /// C ≤ D ≤ T.
    Times = 5,
    /// There is room for the line's task.
    Tasks = 6,
    /// There is room for each section, and none stands inside eight others.
    Sections = 7,
    /// No resource stands twice in a section together with those around it.
    Repeated = 8,
    /// No section is longer than the one around it, and none is longer than C.
    Length = 9,
}

impl Rule {
    /// The number of a refusal for this rule.
    pub fn number(&self) -> u32
        ensures { result ≡ rule_number self.now }
    {
        *self as u32
    }
}

/// A place in a text: a line, and a byte of it, both from 1.
#[derive(Clone, Copy, Debug, PartialEq)]
pub struct Place {
    pub line: usize,
    pub byte: usize,
}

/// A refusal of `read`.
#[derive(Clone, Copy, Debug, PartialEq)]
pub enum Refusal {
    /// The text has more than 16,384 bytes.
    TooLong,
    /// The text has no byte.
    Empty,
    /// A line breaks a rule, and this is the earliest place.
    Broken(Rule, Place),
}

impl Refusal {
    /// The number of this refusal.
    pub fn number(&self) -> u32
        ensures { result ≡ refusal_number self.now }
    {
        // By cases: a refusal that carries a place has no discriminant.
        match self {
            Refusal::TooLong => 1,
            Refusal::Empty => 2,
            Refusal::Broken(rule, _) => rule.number(),
        }
    }
}

/// The numbers that a refusal returns, one space apart: its own, then line and byte where it has a place.
impl fmt::Display for Refusal {
    ghost output = { λ r. Some (spaced (returned r)) };

    fn fmt<W: fmt::Write>(&self, f: &mut fmt::Formatter<W>) -> fmt::Result {
        let number = self.number();
        match self {
            Refusal::TooLong | Refusal::Empty => write!(f, "{number}"),
            Refusal::Broken(_, Place { line, byte }) => write!(f, "{number} {line} {byte}"),
        }
    }
}
