// Reads a job line by line.
ghost use Rattle.std.specs.Prelude.{◌≡◌, ◌<◌, ◌≤◌, length, IfOk, IfSome, Some, None, OnErr, OnOk};
ghost use Rattle.geometry.specs.Refusal.{Answers};
ghost use Rattle.jobtext.specs.Job.{admitted, after, answer, before_all, kind_of, questions};
ghost use Rattle.jobtext.specs.Seen.{entry_of, seen_step};

use crate::fault::Fault;
use crate::read::read_line;
use crate::reader::{Part, Reader};
use crate::record::{LineKind, Record, TextLine};
use arrayvec::ArrayVec;
use geometry::line::Line;
use geometry::refusal::Refusal;

impl Record<'_> {
    // Where the record may stand, and the line of the table that it says.
    pub fn kind(&self) -> LineKind
        ensures { result ≡ kind_of (entry_of self.now) }
    {
        match self {
            Record::Table {
                letter,
                sets,
                block,
                ways,
            } => LineKind::Table(Line {
                letter: *letter,
                sets: sets.value(),
                block: block.value(),
                ways: ways.value(),
            }),
            Record::Open => LineKind::Open,
            Record::Comment(_) => LineKind::Comment,
            _ => LineKind::Run,
        }
    }
}

impl Reader {
    // Before the first line of a job.
    pub fn new() -> Reader
        ensures { result ≡ before_all }
    {
        Reader {
            part: Part::Table,
            lines: ArrayVec::new(),
            job_line: 1,
        }
    }

    // Lets a record in, or tells why it does not belong here.
    fn admit(&mut self, next: &Record) -> Result<(), Refusal>
        ensures answer { Answers (questions self.old (entry_of next.now)) result }
        ensures let_in { OnOk result (self.new ≡ admitted self.old (entry_of next.now)) }
        ensures refused { OnErr result (self.new ≡ self.old) }
    {
        match (self.part, next.kind()) {
            (Part::Table, LineKind::Table(line)) => {
                self.lines.try_push(line).map_err(|_| Refusal::TableSize)?;
            }
            (Part::Table, LineKind::Open) => self.part = Part::Run,
            (Part::Run, LineKind::Run) | (_, LineKind::Comment) => {}
            _ => return Err(Refusal::Part),
        }
        self.job_line = self.job_line.saturating_add(1);
        Ok(())
    }

    // Reads the next line: none at the end of the text, else the record and its length, or a fault.
    pub fn step<'a>(&mut self, rest: &'a [u8]) -> Result<Option<TextLine<'a>>, Fault>
        ensures answer { seen_step result ≡ answer self.old rest.now }
        ensures state { self.new ≡ after self.old (answer self.old rest.now) }
        ensures refused { OnErr result (self.new ≡ self.old) }
        ensures some { IfOk result (λ next. IfSome next (λ line. 0 < line.length)) }
        ensures within { IfOk result (λ next. IfSome next (λ line. line.length ≤ length rest.now)) }
    {
        if rest.is_empty() {
            return Ok(None);
        }
        let job_line = self.job_line;
        let fault = |refusal| Fault {
            refusal,
            job_line,
            table_line: None,
        };
        let line = read_line(rest).map_err(fault)?;
        self.admit(&line.record).map_err(fault)?;
        Ok(Some(line))
    }
}
