// Records and faults in words.
use jobtext::fault::Fault;
use jobtext::record::Record;
use std::{fmt, str};

#[derive(Clone, Copy)]
pub struct InWords<'a>(pub &'a Record<'a>);

impl fmt::Display for InWords<'_> {
    fn fmt<W: fmt::Write>(&self, f: &mut fmt::Formatter<W>) -> fmt::Result {
        match self.0 {
            Record::Table {
                letter,
                sets,
                block,
                ways,
            } => {
                let letter = char::from(*letter);
                let (sets, block, ways) = (sets.value(), block.value(), ways.value());
                write!(f, "table {letter} {sets} {block} {ways}")
            }
            Record::Open => write!(f, "open"),
            Record::Access { kind, address } => { write!(f, "{kind} {}", address.value()) }
            Record::Window { number, first, end } => {
                let (number, first, end) = (number.value(), first.value(), end.value());
                write!(f, "window {number} from {first} to {end}")
            }
            Record::Off { number } => write!(f, "off {}", number.value()),
            Record::Frame => write!(f, "frame"),
            Record::Flush => write!(f, "flush"),
            Record::Zero => write!(f, "zero"),
            Record::Comment(text) => write!(f, "comment of {}", text.len()),
        }
    }
}

// The line of a fault, without its line feed.
#[derive(Clone, Copy)]
pub struct FaultLine<'a>(pub &'a Fault);

impl fmt::Display for FaultLine<'_> {
    fn fmt<W: fmt::Write>(&self, f: &mut fmt::Formatter<W>) -> fmt::Result {
        let mut buffer = [0; 80];
        let length = self.0.write(&mut buffer).map_err(|_| fmt::Error)?;
        let line = str::from_utf8(buffer.get(..length).unwrap_or(&[])).map_err(|_| fmt::Error)?;
        write!(f, "{}", line.trim_end_matches('\n'))
    }
}
