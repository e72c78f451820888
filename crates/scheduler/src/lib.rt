//! The run core: a task table run event by event, over any two queues that keep the queue's meaning.
//!
//! `run_core::Core` has the calls and the questions, `replay::replay` makes a list of calls on a new core and carries what is promised of every run.
//! Nothing here allocates: the queues' memory is lent, and the core holds its records and its stack in itself, with room for the largest table.

#![tactic(auto)]

pub mod answer;
mod engine;
pub mod grant;
mod idle;
pub mod question;
mod records;
pub mod replay;
pub mod run_core;
mod stack;
