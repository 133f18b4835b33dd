// A table whose counts are known.
ghost use Rattle.std.specs.Prelude.{◌≡◌};
ghost use Rattle.bench.specs.Known.{KnownPasses, two_lines};

use geometry::line::Line;

// FIFO with 2 and with 3 ways: on six known reads one pass makes 21 comparisons, and the separate caches make 26.
pub fn two_lines() -> [Line; 2]
    ensures table { result ≡ two_lines 70 }
    ensures known { KnownPasses }
{
    let line = Line {
        letter: b'F',
        sets: 4,
        block: 16,
        ways: 2,
    };
    [line, Line { ways: 3, ..line }]
}
