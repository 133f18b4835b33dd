// What a reader shows.
ghost use Rattle.std.specs.Prelude.{◌≡◌};

use crate::reader::{Part, Reader};
use geometry::line::Line;

impl Reader {
    // The part of the job that comes next.
    pub fn part(&self) -> Part
        ensures { result ≡ self.now.part }
    {
        self.part
    }

    // The number of the next line.
    pub fn job_line(&self) -> u64
        ensures { result ≡ self.now.job_line }
    {
        self.job_line
    }

    // The lines of the table so far.
    pub fn table(&self) -> &[Line]
        ensures { result.now ≡ self.now.lines }
    {
        self.lines.as_slice()
    }
}
