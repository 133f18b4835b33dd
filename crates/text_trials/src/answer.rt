// What the reader answers to a case, in words.
use crate::case::{Case, Sort};
use crate::shown::{FaultLine, InWords};
use geometry::refusal::Refusal;
use jobtext::fault::Fault;
use jobtext::read::read_line;
use jobtext::reader::Reader;
use jobtext::record::TextLine;
use std::fmt;

#[derive(Clone, Copy)]
pub enum Answer<'a> {
    Line(Result<TextLine<'a>, Refusal>),
    Job(Result<(), Fault>),
}

// Reads a job to its end, or to the first fault.
fn read_job(text: &[u8]) -> Result<(), Fault> {
    let mut reader = Reader::new();
    let mut rest = text;
    while let Some(line) = reader.step(rest)? {
        rest = &rest[line.length..];
    }
    Ok(())
}

impl<'a> Answer<'a> {
    pub fn to(case: &'a Case) -> Answer<'a> {
        let text = case.text.as_slice();
        match case.sort {
            Sort::Line => Answer::Line(read_line(text)),
            Sort::Job => Answer::Job(read_job(text)),
        }
    }
}

impl fmt::Display for Answer<'_> {
    fn fmt<W: fmt::Write>(&self, f: &mut fmt::Formatter<W>) -> fmt::Result {
        match self {
            Answer::Line(Ok(line)) => {
                write!(f, "{}, {} bytes", InWords(&line.record), line.length)
            }
            Answer::Line(Err(refusal)) => write!(f, "refused {}", refusal.number()),
            Answer::Job(Ok(())) => write!(f, "read to the end"),
            Answer::Job(Err(fault)) => write!(f, "{}", FaultLine(fault)),
        }
    }
}
