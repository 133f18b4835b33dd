// One pass over a trace for a whole table of caches.
#![tactic(auto)]

mod access;
pub mod bench;
pub mod call;
mod calls;
pub mod counts;
mod direct;
mod held;
pub mod known;
mod lead;
mod level;
pub mod lines;
mod link;
mod miss;
mod open_line;
mod owned;
mod place;
pub mod refused;
pub mod replay;
mod row;
mod rows;
mod small;
mod start;
mod sweep;
mod table;
mod window;
mod windows;
