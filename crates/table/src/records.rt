//! What a table holds once it is read: a record for each task and one for each section.
ghost use Rattle.std.specs.Prelude.{◌≡◌};
ghost use Rattle.table.specs.Name.{part_of};

/// A run of things that are numbered from 0: the number of the first, and how many there are.
#[derive(Clone, Copy, Debug, Default, PartialEq)]
pub struct Span {
    pub first: usize,
    pub count: usize,
}

impl Span {
    /// No place at all.
    pub const EMPTY: Span = Span { first: 0, count: 0 };

    /// The bytes of a text that this span counts; none where it does not lie in the text.
    pub fn part_of<'a>(&self, text: &'a [u8]) -> &'a [u8]
        ensures { result.now ≡ part_of self.now.first self.now.count text.now }
    {
        self.first
            .checked_add(self.count)
            .and_then(|end| text.get(self.first..end))
            .unwrap_or(&[])
    }
}

/// A task: where its name stands in the text, its relative deadline D, period T and run time C in ticks, and its sections.
#[derive(Clone, Copy, Debug, Default, PartialEq)]
pub struct TaskRecord {
    pub name: Span,
    pub deadline: u32,
    pub period: u32,
    pub cost: u32,
    pub sections: Span,
}

impl TaskRecord {
    /// A record that nothing has been read into.
    pub const EMPTY: TaskRecord = TaskRecord {
        name: Span::EMPTY,
        deadline: 0,
        period: 0,
        cost: 0,
        sections: Span::EMPTY,
    };
}

/// A critical section: its task, the section right around it, the resources that it names itself, its length and its level.
///
/// Resource `a` is bit 0 of a set and `z` bit 25. `small` has those that are named by a small letter, `capital` those by a capital.
#[derive(Clone, Copy, Debug, Default, PartialEq)]
pub struct SectionRecord {
    pub task: usize,
    pub around: Option<usize>,
    pub small: u32,
    pub capital: u32,
    pub length: u32,
    pub level: Option<u32>,
}

impl SectionRecord {
    /// A record that nothing has been read into.
    pub const EMPTY: SectionRecord = SectionRecord {
        task: 0,
        around: None,
        small: 0,
        capital: 0,
        length: 0,
        level: None,
    };
}

/// How many tasks and sections there are, or may be.
///
/// Whoever reads a table lends two arrays and gets counts, as from `std::io::Read`: slices in the answer would keep the arrays lent.
#[derive(Clone, Copy, Debug, Default, PartialEq)]
pub struct Counts {
    pub tasks: usize,
    pub sections: usize,
}
