// What a job holds, by kinds of lines.
use crate::table::check_table;
use jobtext::fault::Fault;
use jobtext::reader::Reader;
use jobtext::record::Record;
use std::fmt;

// The accesses are counted by their kind.
#[derive(Clone, Copy, Default)]
pub struct Survey {
    table: u64,
    opened: bool,
    accesses: [u64; 3],
    windows: u64,
    offs: u64,
    frames: u64,
    flushes: u64,
    zeros: u64,
    comments: u64,
}

impl Survey {
    fn count(&mut self, record: &Record) {
        let tally = match record {
            Record::Table { .. } => &mut self.table,
            Record::Open => {
                self.opened = true;
                return;
            }
            Record::Access { kind, .. } => &mut self.accesses[kind.index()],
            Record::Window { .. } => &mut self.windows,
            Record::Off { .. } => &mut self.offs,
            Record::Frame => &mut self.frames,
            Record::Flush => &mut self.flushes,
            Record::Zero => &mut self.zeros,
            Record::Comment(_) => &mut self.comments,
        };
        *tally = tally.saturating_add(1);
    }
}

impl fmt::Display for Survey {
    fn fmt<W: fmt::Write>(&self, f: &mut fmt::Formatter<W>) -> fmt::Result {
        let Survey {
            table,
            opened,
            accesses: [fetches, reads, stores],
            windows,
            offs,
            frames,
            flushes,
            zeros,
            comments,
        } = *self;
        let opened = if opened { "opened" } else { "not opened" };
        writeln!(f, "{table} table lines, {comments} comments")?;
        writeln!(f, "the table is {opened}")?;
        writeln!(
            f,
            "accesses: {fetches} fetches, {reads} reads, {stores} stores"
        )?;
        writeln!(f, "windows: {windows} set, {offs} put off")?;
        write!(f, "{frames} frames, {flushes} flushes, {zeros} zeros")
    }
}

// Reads the job line by line, to its end or to the first fault.
pub fn look_through(text: &[u8]) -> Result<Survey, Fault> {
    let mut found = Survey::default();
    let mut reader = Reader::new();
    let mut rest = text;
    let mut job_line = reader.job_line();
    while let Some(line) = reader.step(rest)? {
        if let Record::Open = line.record {
            check_table(reader.table(), job_line)?;
        }
        found.count(&line.record);
        rest = &rest[line.length..];
        job_line = reader.job_line();
    }
    Ok(found)
}
