// A fault: which question a line of a job did not pass, and where.
use geometry::refusal::Refusal;

// Job lines and table lines count from 1. Only a fault of the table has a table line.
#[derive(Clone, Copy, PartialEq, Eq, Debug)]
pub struct Fault {
    pub refusal: Refusal,
    pub job_line: u64,
    pub table_line: Option<u32>,
}
