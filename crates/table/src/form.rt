//! The form of a line, read byte by byte: which bytes can stand where, whatever they say.
ghost use Rattle.std.specs.Prelude.{◌≡◌, ◌+◌, ◌^◌, ◌<◌};
ghost use Rattle.table.specs.Form.{in_name, in_key, in_digits, in_closed, in_inner, in_length, in_member, stepped, depth_of, form_fault};

use crate::limits::LONGEST_NAME;

/// The three numbers of a line's head, in their order: D, T and C.
#[derive(Clone, Copy, PartialEq)]
pub enum Field {
    Deadline,
    Period,
    Cost,
}

/// What has been read of a line, as far as it decides what can follow.
///
/// The number that a state of a section holds is how many sections are open around it.
#[derive(Clone, Copy)]
pub enum State {
    /// So many letters of the name.
    Name(usize),
    /// The name and its colon.
    Colon,
    /// All before a key.
    Key(Field),
    /// All before a key's equals sign.
    Equals(Field),
    /// All before the first digit of a number of the head.
    Start(Field),
    /// Some digits of it.
    Digits(Field),
    /// A closing brace.
    Closed(usize),
    /// The space after a closing brace, or after the head.
    Inner(usize),
    /// Some digits of a section's length.
    Length(usize),
    /// An opening brace, or a letter.
    Body(usize),
    /// The space after that.
    Member(usize),
}

/// What one more byte does.
///
/// An enum of its own: an `Option` in a `Result` has three outcomes too, but does not say which of them ends a line well.
#[derive(Clone, Copy)]
pub enum Move {
    /// It cannot stand there.
    Refuse,
    /// It ends the line.
    Finish,
    /// Reading goes on.
    Go(State),
}

fn in_name(letters: usize, b: u8) -> Move
    ensures { result ≡ in_name letters b }
{
    match b as char {
        'a'..='z' if letters < LONGEST_NAME => Move::Go(State::Name(letters + 1)),
        ':' if letters > 0 => Move::Go(State::Colon),
        _ => Move::Refuse,
    }
}

fn in_key(field: Field, b: u8) -> Move
    ensures { result ≡ in_key field b }
{
    match (field, b as char) {
        (Field::Deadline, 'D') | (Field::Period, 'T') | (Field::Cost, 'C') => {
            Move::Go(State::Equals(field))
        }
        _ => Move::Refuse,
    }
}

fn in_digits(field: Field, b: u8) -> Move
    ensures { result ≡ in_digits field b }
{
    match b as char {
        '0'..='9' => Move::Go(State::Digits(field)),
        ' ' => match field {
            Field::Deadline => Move::Go(State::Key(Field::Period)),
            Field::Period => Move::Go(State::Key(Field::Cost)),
            Field::Cost => Move::Go(State::Inner(0)),
        },
        '\n' if field == Field::Cost => Move::Finish,
        _ => Move::Refuse,
    }
}

fn in_closed(depth: usize, b: u8) -> Move
    ensures { result ≡ in_closed depth b }
{
    match b as char {
        ' ' => Move::Go(State::Inner(depth)),
        '\n' if depth == 0 => Move::Finish,
        _ => Move::Refuse,
    }
}

fn in_inner(depth: usize, b: u8) -> Move
    ensures { result ≡ in_inner depth b }
{
    match b as char {
        '0'..='9' => Move::Go(State::Length(depth)),
        '}' if depth > 0 => Move::Go(State::Closed(depth - 1)),
        _ => Move::Refuse,
    }
}

fn in_length(around: usize, b: u8) -> Move
    ensures { result ≡ in_length around b }
{
    match b as char {
        '0'..='9' => Move::Go(State::Length(around)),
        '{' => Move::Go(State::Body(around)),
        _ => Move::Refuse,
    }
}

fn in_member(around: usize, b: u8) -> Move
    requires { around + 1 < 2 ^ 64 }
    ensures { result ≡ in_member around b }
{
    match b as char {
        'a'..='z' | 'A'..='Z' => Move::Go(State::Body(around)),
        '0'..='9' => Move::Go(State::Length(around + 1)),
        '}' => Move::Go(State::Closed(around)),
        _ => Move::Refuse,
    }
}

impl State {
    /// What a byte does in this state.
    fn step(self, b: u8) -> Move
        requires { depth_of self + 1 < 2 ^ 64 }
        ensures { result ≡ stepped self b }
    {
        // By cases, one for each state: the states are the grammar, which no caller adds to.
        match (self, b as char) {
            (State::Name(letters), _) => in_name(letters, b),
            (State::Colon, ' ') => Move::Go(State::Key(Field::Deadline)),
            (State::Key(field), _) => in_key(field, b),
            (State::Equals(field), '=') => Move::Go(State::Start(field)),
            (State::Start(field), '0'..='9') => Move::Go(State::Digits(field)),
            (State::Digits(field), _) => in_digits(field, b),
            (State::Closed(depth), _) => in_closed(depth, b),
            (State::Inner(depth), _) => in_inner(depth, b),
            (State::Length(around), _) => in_length(around, b),
            (State::Body(around), ' ') => Move::Go(State::Member(around)),
            (State::Member(around), _) => in_member(around, b),
            _ => Move::Refuse,
        }
    }
}

/// The place, from 0, of the first byte of a line that cannot stand there; where it is the line's length, the line lacks its end.
pub fn form_fault(line: &[u8]) -> Option<usize>
    ensures { result ≡ form_fault line.now }
{
    let mut state = State::Name(0);
    for (i, b) in line.iter().enumerate() {
        match state.step(*b) {
            Move::Refuse => return Some(i),
            Move::Finish => return None,
            Move::Go(next) => state = next,
        }
    }
    Some(line.len())
}
