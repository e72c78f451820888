//! The limits of a table, each in one place.

/// Letters of a name.
pub const LONGEST_NAME: usize = 8;

/// The largest number: a deadline, a period, a run time or a length, in ticks.
pub const LARGEST: u32 = 1_048_576;

/// Bytes of a text.
pub const LONGEST_TEXT: usize = 16_384;

/// Tasks of a table.
pub const MOST_TASKS: usize = 32;

/// Sections of a table.
pub const MOST_SECTIONS: usize = 64;

/// Sections that stand inside one another.
pub const DEEPEST: usize = 8;

/// Resources, one for each letter.
pub const RESOURCES: u32 = 26;

/// The same, as the length of an array.
pub const LETTERS: usize = RESOURCES as usize;
