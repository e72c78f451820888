//! Admission: whether the tasks of a table meet every deadline, however their releases fall.

#![tactic(auto)]

pub mod admit;
mod check;
mod demand;
mod idle;
mod instant;
mod judge;
pub mod laws;
pub mod pass;
mod path;
pub mod refusal;
