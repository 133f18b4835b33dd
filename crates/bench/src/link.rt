// Where the levels and the block sizes of a table end.
ghost use Rattle.std.specs.Prelude.{◌≡◌, ◌+◌, ◌*◌, ◌^◌, ◌<◌, ◌≤◌, length};
ghost use Rattle.bench.specs.Joins.{Joins, whole};
ghost use Rattle.bench.specs.Spans.{Linked};
ghost use Rattle.bench.specs.Words.{row_words};

use crate::open_line::{OpenLine, Span};
use geometry::geometry::Geometry;

// The words of a line's rows.
fn row_words(geometry: &Geometry) -> usize
    ensures value { result ≡ row_words (2 ^ geometry.now.set_bits) (record { member = geometry.now.member; ways = geometry.now.ways }) }
    ensures small { result ≤ 294912 }
{
    if geometry.ways <= 1 {
        return 0;
    }
    geometry.sets() * (geometry.ways + 2)
}

// A span with one line before it.
fn longer(span: &Span, words: usize) -> Span
    requires few { span.now.lines < 64 }
    requires small { words ≤ 327680 }
    ensures lines { result.lines ≡ span.now.lines + 1 }
    ensures words { result.words ≡ span.now.words + words }
{
    Span {
        lines: span.lines + 1,
        words: span.words + words,
    }
}

impl OpenLine {
    // The line has a block size of its own; answers its words.
    fn stand_alone(&mut self) -> usize
        ensures geometry { self.new.geometry ≡ self.old.geometry }
        ensures level { (self.new.level.lines ≡ 1) × (self.new.level.words ≡ whole self.old.geometry) }
        ensures family { (self.new.family.lines ≡ 1) × (self.new.family.words ≡ whole self.old.geometry) }
        ensures adds { result ≡ whole self.old.geometry }
        ensures small { result ≤ 327680 }
    {
        let words = 2 * self.geometry.sets() + row_words(&self.geometry);
        let span = Span { lines: 1, words };
        self.level = span;
        self.family = span;
        words
    }

    // The line stands before others of which the first is `next`; answers the words that it adds to theirs.
    fn join(&mut self, next: &OpenLine) -> usize
        requires level_few { next.now.level.lines < 64 }
        requires family_few { next.now.family.lines < 64 }
        ensures geometry { self.new.geometry ≡ self.old.geometry }
        ensures joins { Joins self.old.geometry next.now self.new.level self.new.family result }
        ensures small { result ≤ 327680 }
    {
        let words = self.stand_alone();
        if self.geometry.block_bits != next.geometry.block_bits {
            return words;
        }
        if self.geometry.set_bits != next.geometry.set_bits {
            self.family = longer(&next.family, words);
            return words;
        }
        let rows = row_words(&self.geometry);
        self.level = longer(&next.level, rows);
        self.family = longer(&next.family, rows);
        rows
    }
}

// Tells each line where its level and its block size end; answers the words that all of them need.
pub(crate) fn link(lines: &mut [OpenLine]) -> usize
    requires { length lines.old ≤ 64 }
    ensures { Linked lines.old lines.new result }
{
    let Some((first, later)) = lines.split_first_mut() else {
        return 0;
    };
    let words = link(later);
    match later.first() {
        None => first.stand_alone(),
        Some(next) => words + first.join(next),
    }
}
