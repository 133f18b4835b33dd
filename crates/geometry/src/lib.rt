// The geometry of a cache: a table line, what it may ask for, and where an address lies.
#![tactic(auto)]

pub mod address;
pub mod geometry;
pub mod kind;
pub mod line;
pub mod refusal;
