// Caches that a console may have had, for the two programs that search among them.
ghost use Rattle.std.specs.Prelude.{◌≡◌, map};
ghost use Rattle.standalone.specs.Known.{four_sets, six_lines};

use geometry::line::Line;

// A cache, and what its policy is called.
#[derive(Clone, Copy, Debug)]
pub struct Candidate {
    pub policy: &'static str,
    pub line: Line,
}

// A cache of 4 sets of blocks of 16 bytes.
fn four_sets(letter: u8, ways: u64) -> Line
    ensures { result ≡ four_sets letter ways }
{
    Line {
        block: 16,
        sets: 4,
        letter,
        ways,
    }
}

// FIFO, LRU and tree PLRU, each with two numbers of ways, in the order of a table.
pub fn candidates() -> [Candidate; 6]
    ensures { map (λ c. c.line) result ≡ six_lines }
{
    let candidate = |policy, letter, ways| Candidate {
        policy,
        line: four_sets(letter, ways),
    };
    [
        candidate("FIFO", b'F', 2),
        candidate("FIFO", b'F', 3),
        candidate("LRU", b'L', 2),
        candidate("LRU", b'L', 3),
        candidate("tree PLRU", b'P', 2),
        candidate("tree PLRU", b'P', 4),
    ]
}
