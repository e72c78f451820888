//! The sections of a task that are open while its records are read.

use arrayvec::ArrayVec;
use table::limits::DEEPEST;

mod steps;

/// A section that is still open: its number, its length, and the resources that it and those around it name.
#[derive(Clone, Copy, Default)]
pub struct Opened {
    pub number: usize,
    pub length: u32,
    pub letters: u32,
}

/// The open sections, outermost first.
#[derive(Drop)]
pub struct Path {
    pub opened: ArrayVec<Opened, DEEPEST>,
}
