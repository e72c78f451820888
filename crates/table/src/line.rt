//! The parts of a well-formed line: its numbers, and the items of its sections.
//!
//! None of these functions relies on the line's form; on other lines they find what their definitions say.
ghost use Rattle.std.specs.Prelude.{◌≡◌, ◌+◌, ◌^◌, ◌<◌, min, drop, MatchOption};
ghost use Rattle.std.specs.Iterator.{YieldsFirst, item_count};
ghost use Rattle.table.specs.Item.{mark_at, left};
ghost use Rattle.table.specs.Limits.{largest};
ghost use Rattle.table.specs.Number.{NoDigit, IsDigit, decimal, digit_run, behind, numeral_at, ranged, ticks_of};

use crate::limits::LARGEST;

/// A number of a line: the place of its first byte, from 0 in the line, and its value if it keeps the rules for numbers.
#[derive(Clone, Copy)]
pub struct Numeral {
    pub place: usize,
    pub value: Option<u32>,
}

impl Numeral {
    /// The number's value; 0 where it breaks a rule.
    pub(crate) fn ticks(&self) -> u32
        ensures { result ≡ ticks_of self.now }
    {
        self.value.unwrap_or(0)
    }
}

/// A letter of a section: its place in the line, the resource that it names, as a set of one, and whether it is a capital.
///
/// The flag is no enum, since a letter is small or a capital and nothing else, and one place asks which.
#[derive(Clone, Copy)]
pub struct Letter {
    pub place: usize,
    pub bit: u32,
    pub capital: bool,
}

/// What a line has behind its head, in the order of the text.
#[derive(Clone, Copy)]
pub enum Item {
    /// A section opens, with its length.
    Open(Numeral),
    /// A letter of the innermost open section.
    Named(Letter),
    /// The innermost open section closes.
    Close,
}

/// A number's value, by its first digit and what its digits come to, if it keeps the rules.
fn in_range(leads: Option<u32>, value: u32) -> Option<u32>
    ensures { result ≡ ranged leads value }
{
    leads.filter(|d| *d > 0 && value <= LARGEST).map(|_| value)
}

/// The item that a byte is by itself: a letter, or a closing brace.
fn mark(place: usize, b: u8) -> Option<Item>
    ensures { result ≡ mark_at place b }
{
    let (first, capital) = match b as char {
        'a'..='z' => (b'a', false),
        'A'..='Z' => (b'A', true),
        '}' => return Some(Item::Close),
        _ => return None,
    };
    Some(Item::Named(Letter {
        place,
        bit: 1 << (b - first),
        capital,
    }))
}

/// A line and a place in it, up to which it has been read. As an iterator it gives the items from there on.
#[derive(Clone, Copy, Drop)]
pub struct Cursor<'a> {
    line: &'a [u8],
    place: usize,
}

impl<'a> Cursor<'a> {
    /// A line, read up to a place.
    pub(crate) fn at(line: &'a [u8], place: usize) -> Cursor<'a>
        ensures line { result.line.now ≡ line.now }
        ensures place { result.place ≡ place }
    {
        Cursor { line, place }
    }

    /// The place up to which the line has been read.
    pub(crate) fn place(&self) -> usize
        ensures { result ≡ self.now.place }
    {
        self.place
    }

    /// Passes over so many bytes.
    pub(crate) fn pass(&mut self, bytes: usize)
        requires { self.old.place + bytes < 2 ^ 64 }
        ensures after { self.new.place ≡ self.old.place + bytes }
        ensures same { self.new.line.now ≡ self.old.line.now }
    {
        self.place += bytes;
    }

    /// The digit at the place, if one stands there.
    fn digit(&self) -> Option<u32>
        ensures { MatchOption result (NoDigit self.now.line.now self.now.place) (IsDigit self.now.line.now self.now.place) }
    {
        let b = *self.line.get(self.place)?;
        match b as char {
            '0'..='9' => Some(u32::from(b - b'0')),
            _ => None,
        }
    }

    /// The value of the digits from the place on, or one more than the largest number if it is larger; goes on behind them.
    fn digits(&mut self) -> u32
        ensures value { result ≡ min (largest + 1) (decimal (digit_run (drop self.old.place self.old.line.now))) }
        ensures after { self.new.place ≡ behind self.old.place self.old.line.now }
        ensures same { self.new.line.now ≡ self.old.line.now }
    {
        let mut value = 0;
        // No fold over a slice: the cursor would still have to be moved by the number of digits that it took.
        while let Some(d) = self.digit() {
            value = (value * 10 + d).min(LARGEST + 1);
            self.place += 1;
        }
        value
    }

    /// The number at the place; goes on behind its digits.
    pub(crate) fn number(&mut self) -> Numeral
        ensures value { result ≡ numeral_at self.old.place self.old.line.now }
        ensures after { self.new.place ≡ behind self.old.place self.old.line.now }
        ensures same { self.new.line.now ≡ self.old.line.now }
    {
        let place = self.place;
        let leads = self.digit();
        let value = self.digits();
        Numeral {
            place,
            value: in_range(leads, value),
        }
    }
}

impl<'a> Iterator for Cursor<'a> {
    type Item = Item;

    ghost next_gives = { YieldsFirst left };

    ghost remaining = { item_count left };

    /// The next item, if one is left; goes on behind it.
    fn next(&mut self) -> Option<Item> {
        while let Some(b) = self.line.get(self.place) {
            if self.digit().is_some() {
                return Some(Item::Open(self.number()));
            }
            let place = self.place;
            self.place += 1;
            if let Some(item) = mark(place, *b) {
                return Some(item);
            }
        }
        None
    }
}
