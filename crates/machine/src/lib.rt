//! The run machine: what every run of an admitted table is held to. Almost all of it is definitions, in `specs/`.

#![tactic(auto)]

pub mod call;
pub mod examples;
pub mod promise;
