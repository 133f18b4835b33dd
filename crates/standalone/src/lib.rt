// One cache run alone, over its own memory.
#![tactic(auto)]

pub mod access;
mod cache;
pub mod candidates;
pub mod known;
pub mod run;
