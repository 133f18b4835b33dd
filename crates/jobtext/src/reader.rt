// How far a job is read: its part, its table and the number of the next line.
use arrayvec::ArrayVec;
use geometry::line::Line;
use std::marker::Model;

// The parts of a job: before the table is opened, and after.
#[derive(Clone, Copy, PartialEq, Eq, Debug)]
pub enum Part {
    Table,
    Run,
}

// The lines are the table so far. Job lines count from 1.
#[derive(Drop)]
pub struct Reader {
    pub(crate) part: Part,
    pub(crate) lines: ArrayVec<Line, 64>,
    pub(crate) job_line: u64,
}

impl Model for Reader {
    ghost use Rattle.jobtext.specs.Job.{State};

    ghost Value = { State };

    ghost view = { λ r. record { part = r.part; lines = r.lines.items; job_line = r.job_line } };
}
