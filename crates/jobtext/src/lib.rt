// The text of a job: its lines as records, its table, and what is written back.
#![tactic(auto)]

mod bytes;
mod compose;
pub mod fault;
pub mod numeral;
pub mod read;
pub mod reader;
pub mod record;
pub mod report;
pub mod steps;
pub mod views;
pub mod write;
