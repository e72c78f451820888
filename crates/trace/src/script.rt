//! What standard input holds: a table, an empty line, then calls, one a line.
ghost use Rattle.std.specs.Prelude.{◌≡◌, IfOk};
ghost use Rattle.trace.specs.Cut.{line_of, behind_line, table_of, behind_table};
ghost use Rattle.trace.specs.Line.{Counts, Names, Says};
ghost use Rattle.trace.specs.Taken.{choice_of, Lined, Taken, calls_among};

use machine::call::{Call, Ticket};
use std::alloc::{AllocError, Global};
use std::str::from_utf8;

/// A line behind the table that is not empty: its bytes as given, and the call that it is, if it is one.
#[derive(Clone, Copy)]
pub struct Line<'a> {
    pub given: &'a [u8],
    pub call: Option<Call>,
}

/// Which implementation both queues have.
#[derive(Clone, Copy)]
pub enum Queues {
    Lists,
    Heaps,
}

/// The table's text, the choice of the queues, and the lines behind it that are not empty.
#[derive(Drop)]
pub struct Script<'a> {
    pub table: &'a [u8],
    pub queues: Queues,
    pub lines: Vec<Line<'a>>,
}

/// The number that a word is in digits, however many; none for any other word and for a number of more than 64 bits.
fn number(word: &str) -> Option<u64>
    ensures { Counts 64 word.now result }
{
    if word.starts_with('+') {
        return None;
    }
    word.parse::<u64>().ok()
}

/// The same of 32 bits.
// Not one function with `number` for both widths: no bound on a type parameter says how many bits it has.
fn small_number(word: &str) -> Option<u32>
    ensures { Counts 32 word.now result }
{
    u32::try_from(number(word)?).ok()
}

/// The grant that three numbers name, one space apart.
fn ticket(words: &str) -> Option<Ticket>
    ensures { Names words.now result }
{
    let (task, rest) = words.split_once(' ')?;
    let (section, serial) = rest.split_once(' ')?;
    Some(Ticket {
        task: number(task)? as usize,
        section: number(section)? as usize,
        serial: small_number(serial)?,
    })
}

/// The call that a text is, if it is one: a word and its numbers, one space apart, and nothing else.
fn call(text: &str) -> Option<Call>
    ensures { Says text.now result }
{
    if text == "finish" {
        return Some(Call::Finish);
    }
    if let Some(word) = text.strip_prefix("advance ") {
        return Some(Call::Advance(number(word)?));
    }
    if let Some(word) = text.strip_prefix("enter ") {
        return Some(Call::Enter(number(word)? as usize));
    }
    let words = text.strip_prefix("leave ")?;
    Some(Call::Leave(ticket(words)?))
}

impl<'a> Line<'a> {
    /// A line from its bytes. Bytes that are no text are no call.
    fn read(given: &'a [u8]) -> Line<'a>
        ensures given { result.given.now ≡ given.now }
        ensures call { Says given.now result.call }
    {
        Line {
            given,
            call: from_utf8(given).ok().and_then(call),
        }
    }
}

/// The bytes up to the first byte 10, and those behind it.
fn first_line(text: &[u8]) -> (&[u8], &[u8])
    ensures line { result.0.now ≡ line_of text.now }
    ensures behind { result.1.now ≡ behind_line text.now }
{
    match text.iter().position(|b| *b == b'\n') {
        Some(i) => (&text[..i], &text[i + 1..]),
        None => (text, &[]),
    }
}

/// The lines of a text that are not empty. The last one need not end with byte 10.
fn lines<'a>(heap: Global, text: &'a [u8]) -> Result<Vec<Line<'a>>, AllocError>
    ensures { IfOk result (λ v. Lined text.now v.items) }
{
    text.split(|b| *b == b'\n')
        .filter(|line| !line.is_empty())
        .map(Line::read)
        .collect(heap)
}

/// The bytes before the first empty line, and those behind it. Without an empty line nothing is behind.
fn at_empty_line(input: &[u8]) -> (&[u8], &[u8])
    ensures table { result.0.now ≡ table_of input.now }
    ensures behind { result.1.now ≡ behind_table input.now }
{
    if let Some(behind) = input.strip_prefix(b"\n") {
        return (&[], behind);
    }
    match input.windows(2).position(|pair| pair == b"\n\n".as_slice()) {
        Some(i) => (&input[..=i], &input[i + 2..]),
        None => (input, &[]),
    }
}

/// The queues that a line chooses, if it chooses some.
// Tests and no `match` on the bytes, whose arms do not tell the check which bytes the line has.
fn choice(line: &[u8]) -> Option<Queues>
    ensures { result ≡ choice_of line.now }
{
    if line == b"queue list".as_slice() {
        return Some(Queues::Lists);
    }
    if line == b"queue heap".as_slice() {
        return Some(Queues::Heaps);
    }
    None
}

impl<'a> Script<'a> {
    /// Takes an input apart. The first line behind the table may choose the queues; without such a line they are heaps.
    pub(crate) fn read(heap: Global, input: &'a [u8]) -> Result<Script<'a>, AllocError>
        ensures { IfOk result (λ s. Taken input.now s) }
    {
        let (table, behind) = at_empty_line(input);
        let (first, rest) = first_line(behind);
        let (queues, calls) = match choice(first) {
            Some(queues) => (queues, rest),
            None => (Queues::Heaps, behind),
        };
        Ok(Script {
            table,
            queues,
            lines: lines(heap, calls)?,
        })
    }

    /// The calls among the lines, in their order.
    pub(crate) fn calls(&self, heap: Global) -> Result<Vec<Call>, AllocError>
        ensures { IfOk result (λ v. v.items ≡ calls_among self.now.lines.items) }
    {
        self.lines.iter().filter_map(|line| line.call).collect(heap)
    }
}
