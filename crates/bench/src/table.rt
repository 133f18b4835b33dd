// The table of an open bench.
ghost use Rattle.std.specs.Prelude.{◌≡◌, ◌≤◌, true, length};
ghost use Rattle.bench.specs.Joins.{linked};
ghost use Rattle.bench.specs.Spans.{configs};
ghost use Rattle.bench.specs.Table.{families, families_words};

use crate::open_line::OpenLine;
use arrayvec::ArrayVec;

// The most lines that a table has.
pub(crate) const MOST_LINES: usize = 64;

// The lines, which tell where their levels end, and the words that they need in a workspace.
#[derive(Drop)]
pub(crate) struct Table {
    pub(crate) lines: ArrayVec<OpenLine, MOST_LINES>,
    pub(crate) need: usize,
    ghost few: { length lines.items ≤ 64 },
    ghost spans: { linked lines.items ≡ true },
    ghost needs: { need ≡ families_words (families (configs lines.items)) },
}
