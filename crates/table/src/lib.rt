//! Task tables: their records, the text that they are read from, and the levels of sections.

#![tactic(auto)]

mod check;
mod fill;
mod form;
mod head;
pub mod levels;
pub mod limits;
mod line;
pub mod read;
pub mod records;
pub mod refusal;
mod rules;
