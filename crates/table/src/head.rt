//! The head of a line: its name and its three numbers.
ghost use Rattle.std.specs.Prelude.{◌≡◌, ◌≤◌, length};
ghost use Rattle.table.specs.Head.{name_length, head_of};

use crate::line::{Cursor, Numeral};

/// The head of a line: how long its name is, its numbers, and where its body begins.
#[derive(Clone, Copy)]
pub struct Head {
    pub name: usize,
    pub deadline: Numeral,
    pub period: Numeral,
    pub cost: Numeral,
    pub body: usize,
}

/// How many bytes stand before the line's colon.
fn name_length(line: &[u8]) -> usize
    ensures value { result ≡ name_length line.now }
    ensures bound { result ≤ length line.now }
{
    line.iter().position(|b| *b == b':').unwrap_or(line.len())
}

/// Takes the head of a line apart.
pub(crate) fn head_of(line: &[u8]) -> Head
    ensures { result ≡ head_of line.now }
{
    let name = name_length(line);
    let mut cursor = Cursor::at(line, name + 4);
    let deadline = cursor.number();
    cursor.pass(3);
    let period = cursor.number();
    cursor.pass(3);
    let cost = cursor.number();
    Head {
        name,
        deadline,
        period,
        cost,
        body: cursor.place(),
    }
}
