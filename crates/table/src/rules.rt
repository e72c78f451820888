//! The rules that a well-formed line has to keep: for each, the place of its earliest breach.
ghost use Rattle.std.specs.Prelude.{◌≡◌, true, []};
ghost use Rattle.table.specs.Item.{left};
ghost use Rattle.table.specs.Rule.{unreadable, item_fault, head_fault, number_fault, times_fault, tasks_fault, section_fault, repeat_fault, length_fault, opens, shallow};

use crate::head::Head;
use crate::limits::DEEPEST;
use crate::line::{Cursor, Item, Numeral};
use arrayvec::ArrayVec;

/// The place of a number that is out of its range.
fn unread(n: &Numeral) -> Option<usize>
    ensures { result ≡ unreadable n.now }
{
    n.value.is_none().then_some(n.place)
}

/// The earliest number of a line's head that is out of its range.
pub(crate) fn head_fault(head: &Head) -> Option<usize>
    ensures { result ≡ head_fault head.now }
{
    [head.deadline, head.period, head.cost]
        .iter()
        .find_map(unread)
}

fn item_fault(item: Item) -> Option<usize>
    ensures { result ≡ item_fault item }
{
    match item {
        Item::Open(n) => unread(&n),
        Item::Named(_) | Item::Close => None,
    }
}

/// The earliest length of a section that is out of its range.
pub(crate) fn number_fault(mut items: Cursor<'_>) -> Option<usize>
    ensures { result ≡ number_fault (left items.entry) }
{
    items.find_map(item_fault)
}

/// The line's start where C ≤ D ≤ T does not hold.
pub(crate) fn times_fault(head: &Head) -> Option<usize>
    ensures { result ≡ times_fault head.now }
{
    let deadline = head.deadline.ticks();
    let kept = head.cost.ticks() <= deadline && deadline <= head.period.ticks();
    (!kept).then_some(0)
}

/// The line's start where there is no room for its task.
pub(crate) fn tasks_fault(room: usize, before: usize) -> Option<usize>
    ensures { result ≡ tasks_fault room before }
{
    (before >= room).then_some(0)
}

/// How many sections a line has.
pub(crate) fn count_sections(items: Cursor<'_>) -> usize
    ensures { result ≡ opens (left items.entry) }
{
    items.filter(|item| matches!(item, Item::Open(_))).count()
}

/// The earliest section for which there is no room, or that is nested too deep.
pub(crate) fn section_fault(items: Cursor<'_>, room: usize, before: usize) -> Option<usize>
    ensures { result ≡ section_fault room before 0 (left items.entry) }
{
    let mut count = before;
    let mut depth: usize = 0;
    for item in items {
        match item {
            Item::Open(n) => {
                if count >= room || depth >= DEEPEST {
                    return Some(n.place);
                }
                count += 1;
                depth += 1;
            }
            Item::Named(_) => {}
            Item::Close => depth = depth.saturating_sub(1),
        }
    }
    None
}

/// The items of a line whose sections nest at most eight deep.
#[derive(Clone, Copy, Drop)]
pub struct Nested<'a> {
    items: Cursor<'a>,
    ghost shallow: { shallow 0 (left items) ≡ true },
}

impl<'a> Nested<'a> {
    /// Items of which at most eight sections are open at once.
    pub(crate) fn of(items: Cursor<'a>) -> Nested<'a>
        requires { shallow 0 (left items) ≡ true }
        ensures { result.items ≡ items.entry }
    {
        Nested { items }
    }

    /// The items.
    pub(crate) fn items(&self) -> Cursor<'a>
        ensures { result ≡ self.now.items }
    {
        self.items
    }

    /// The earliest letter whose resource its section, or one around it, has named before.
    pub(crate) fn repeat_fault(&self) -> Option<usize>
        ensures { result ≡ repeat_fault [] (left self.now.items) }
    {
        let mut seen = ArrayVec::<u32, DEEPEST>::new();
        for item in self.items {
            let named = seen.last().copied().unwrap_or(0);
            match item {
                Item::Open(_) => seen.push(named),
                Item::Named(l) => {
                    if named & l.bit != 0 {
                        return Some(l.place);
                    }
                    if let Some(set) = seen.last_mut() {
                        *set = named | l.bit;
                    }
                }
                Item::Close => {
                    seen.pop();
                }
            }
        }
        None
    }

    /// The earliest section that is longer than the one around it, or than C.
    pub(crate) fn length_fault(&self, cost: u32) -> Option<usize>
        ensures { result ≡ length_fault cost [] (left self.now.items) }
    {
        let mut lengths = ArrayVec::<u32, DEEPEST>::new();
        for item in self.items {
            match item {
                Item::Open(n) => {
                    let length = n.ticks();
                    if length > lengths.last().copied().unwrap_or(cost) {
                        return Some(n.place);
                    }
                    lengths.push(length);
                }
                Item::Named(_) => {}
                Item::Close => {
                    lengths.pop();
                }
            }
        }
        None
    }
}
