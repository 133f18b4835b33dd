// What a line of a job says. Numbers and comments are lent by the text.
use crate::numeral::{Decimal, Hex};
// The kind of an access in a line is that of every access.
pub use geometry::kind::AccessKind;
use geometry::line::Line;

// Where a line may stand: a table line and the opening only before the run, a line of the run only in it.
#[derive(Clone, Copy, PartialEq, Eq, Debug)]
pub enum LineKind {
    Table(Line),
    Open,
    Run,
    Comment,
}

// A line of a job.
#[derive(Clone, Copy)]
pub enum Record<'a> {
    // a line of the table
    Table {
        letter: u8,
        sets: Decimal<'a>,
        block: Decimal<'a>,
        ways: Decimal<'a>,
    },
    // the table is opened
    Open,
    // a fetch, a read or a store
    Access {
        kind: AccessKind,
        address: Hex<'a>,
    },
    // a window of addresses
    Window {
        number: Decimal<'a>,
        first: Hex<'a>,
        end: Hex<'a>,
    },
    // a window is taken away
    Off {
        number: Decimal<'a>,
    },
    // a frame ends
    Frame,
    // the caches are emptied
    Flush,
    // the counters are set to zero
    Zero,
    // a comment, without its sign
    Comment(&'a [u8]),
}

// A record, and the bytes that its line takes with its line feed.
#[derive(Clone, Copy)]
pub struct TextLine<'a> {
    pub record: Record<'a>,
    pub length: usize,
}
