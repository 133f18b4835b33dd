// A line of an open table.
ghost use Rattle.std.specs.Prelude.{◌≡◌, ◌*◌, ◌≤◌};

use geometry::geometry::Geometry;
use policy::three::Member;

// A run of lines, and the words that they take in the workspace: at most 327,680 a line.
#[derive(Clone, Copy)]
pub(crate) struct Span {
    pub(crate) lines: usize,
    pub(crate) words: usize,
    ghost small: { words ≤ lines * 327680 },
}

// Where the first line of a level stands, `level` are the lines of that level, and where the first line of a block size
// stands, `family` are the lines of that block size.
#[derive(Clone, Copy)]
pub(crate) struct OpenLine {
    pub(crate) geometry: Geometry,
    pub(crate) level: Span,
    pub(crate) family: Span,
}

impl OpenLine {
    // A line that does not know yet where its level ends.
    pub(crate) fn new(geometry: Geometry) -> OpenLine
        ensures { result.geometry ≡ geometry }
    {
        let none = Span { lines: 0, words: 0 };
        OpenLine {
            geometry,
            level: none,
            family: none,
        }
    }
}

// A place of the table that no line has taken.
impl Default for OpenLine {
    fn default() -> OpenLine {
        OpenLine::new(Geometry {
            member: Member::First,
            set_bits: 0,
            block_bits: 0,
            ways: 0,
        })
    }
}
