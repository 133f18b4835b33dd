// Calls at the borders of what is refused, with the number that each must give.
use geometry::line::Line;
use standalone::access::Access;
use std::fmt;

// Words that suffice for every line here that runs.
const ROOM: usize = 65536;

const READ: Access = Access {
    kind: 1,
    address: 64,
};

const LAST_KIND: Access = Access { kind: 2, ..READ };

const BAD_KIND: Access = Access { kind: 3, ..READ };

const LARGE_KIND: Access = Access { kind: 255, ..READ };

const LAST_ADDRESS: Access = Access {
    address: 4294967295,
    ..READ
};

const BAD_ADDRESS: Access = Access {
    address: 4294967296,
    ..READ
};

const LONG_ADDRESS: Access = Access {
    address: 9999999999,
    ..READ
};

const BAD_BOTH: Access = Access {
    kind: 3,
    ..BAD_ADDRESS
};

#[derive(Clone, Copy)]
pub struct Case {
    pub line: Line,
    pub words: usize,
    pub accesses: &'static [Access],
    // the number that the refusal has for a user, and so stays a number here; none where the call must run
    pub number: Option<u8>,
}

impl Case {
    fn runs(line: Line) -> Case {
        Case {
            line,
            words: ROOM,
            accesses: &[READ],
            number: None,
        }
    }

    fn refused(number: u8, line: Line) -> Case {
        Case {
            number: Some(number),
            ..Case::runs(line)
        }
    }

    fn over(self, accesses: &'static [Access]) -> Case {
        Case { accesses, ..self }
    }

    fn within(self, words: usize) -> Case {
        Case { words, ..self }
    }
}

impl fmt::Display for Case {
    fn fmt<W: fmt::Write>(&self, f: &mut fmt::Formatter<W>) -> fmt::Result {
        let Case {
            line,
            words,
            accesses,
            number,
        } = self;
        let Line {
            letter,
            sets,
            block,
            ways,
        } = line;
        let letter = char::from(*letter);
        write!(
            f,
            "{letter} {sets} {block} {ways} in {words} words over {accesses:?}: expected {number:?}"
        )
    }
}

fn line(letter: u8, sets: u64, block: u64, ways: u64) -> Line {
    Line {
        letter,
        sets,
        block,
        ways,
    }
}

// Letters.
pub fn letter_cases() -> [Case; 6] {
    [
        Case::refused(6, line(b'X', 4, 16, 2)),
        Case::refused(6, line(b'f', 4, 16, 2)),
        Case::refused(6, line(0, 4, 16, 2)),
        Case::runs(line(b'F', 4, 16, 2)),
        Case::runs(line(b'L', 4, 16, 2)),
        Case::runs(line(b'P', 4, 16, 2)),
    ]
}

// Numbers of sets.
pub fn set_cases() -> [Case; 8] {
    [
        Case::refused(7, line(b'F', 0, 16, 2)),
        Case::runs(line(b'F', 1, 16, 2)),
        Case::refused(7, line(b'L', 3, 16, 2)),
        Case::runs(line(b'P', 16384, 16, 2)),
        Case::refused(7, line(b'F', 32768, 16, 2)),
        Case::refused(7, line(b'L', 4294967296, 16, 2)),
        Case::refused(7, line(b'P', 9999999999, 16, 2)),
        Case::refused(7, line(b'F', 18446744073709551615, 16, 2)),
    ]
}

// Block sizes.
pub fn block_cases() -> [Case; 8] {
    [
        Case::refused(8, line(b'F', 4, 0, 2)),
        Case::runs(line(b'F', 4, 1, 2)),
        Case::refused(8, line(b'L', 4, 3, 2)),
        Case::runs(line(b'P', 4, 1024, 2)),
        Case::refused(8, line(b'F', 4, 2048, 2)),
        Case::refused(8, line(b'L', 4, 4294967312, 2)),
        Case::refused(8, line(b'P', 4, 9999999999, 2)),
        Case::refused(8, line(b'F', 4, 18446744073709551615, 2)),
    ]
}

// Numbers of ways.
pub fn ways_cases() -> [Case; 16] {
    [
        Case::refused(9, line(b'F', 4, 16, 0)),
        Case::runs(line(b'F', 4, 16, 16)),
        Case::refused(9, line(b'F', 4, 16, 17)),
        Case::refused(9, line(b'L', 4, 16, 0)),
        Case::runs(line(b'L', 4, 16, 16)),
        Case::refused(9, line(b'L', 4, 16, 17)),
        Case::refused(9, line(b'P', 4, 16, 0)),
        Case::runs(line(b'P', 4, 16, 1)),
        Case::refused(9, line(b'P', 4, 16, 3)),
        Case::runs(line(b'P', 4, 16, 16)),
        Case::refused(9, line(b'P', 4, 16, 17)),
        Case::refused(9, line(b'P', 4, 16, 32)),
        Case::refused(9, line(b'F', 4, 16, 4294967298)),
        Case::refused(9, line(b'L', 4, 16, 9999999999)),
        Case::refused(9, line(b'P', 4, 16, 9999999999)),
        Case::refused(9, line(b'F', 4, 16, 18446744073709551615)),
    ]
}

// Lengths of the memory, and single accesses.
pub fn access_cases() -> [Case; 14] {
    let small = line(b'F', 4, 16, 2);
    let large = line(b'P', 16384, 1024, 16);
    [
        Case::refused(11, small).within(0),
        Case::refused(11, small).within(11),
        Case::runs(small).within(12),
        Case::refused(11, large).within(278527),
        Case::runs(large).within(278528),
        Case::runs(small).over(&[]),
        Case::runs(large).within(278528).over(&[]),
        Case::runs(small).over(&[LAST_KIND]),
        Case::refused(12, small).over(&[BAD_KIND]),
        Case::refused(12, small).over(&[READ, LARGE_KIND]),
        Case::runs(small).over(&[READ, LAST_ADDRESS]),
        Case::refused(13, small).over(&[BAD_ADDRESS]),
        Case::refused(13, small).over(&[READ, LONG_ADDRESS]),
        Case::refused(13, small).over(&[READ, READ, READ, BAD_ADDRESS]),
    ]
}

// Calls that are wrong in more than one way: the first question decides.
pub fn order_cases() -> [Case; 11] {
    let small = line(b'F', 4, 16, 2);
    [
        Case::refused(6, line(b'X', 3, 3, 17)),
        Case::refused(6, line(b'X', 0, 16, 2)),
        Case::refused(7, line(b'F', 3, 3, 17)),
        Case::refused(7, line(b'P', 32768, 16, 3)),
        Case::refused(8, line(b'F', 4, 3, 17)),
        Case::refused(9, line(b'P', 4, 16, 3)).within(0),
        Case::refused(9, line(b'P', 4, 16, 3)).over(&[BAD_KIND]),
        Case::refused(11, small).within(11).over(&[BAD_BOTH]),
        Case::refused(12, small).over(&[BAD_BOTH]),
        Case::refused(12, small).over(&[READ, BAD_KIND, BAD_ADDRESS]),
        Case::refused(13, small).over(&[READ, BAD_ADDRESS, BAD_KIND]),
    ]
}
