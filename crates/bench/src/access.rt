// A cached access at a table, and the misses of its lines.
ghost use Rattle.std.specs.Prelude.{◌≤◌, length, take};
ghost use Rattle.geometry.specs.Kind.{kind_number};
ghost use Rattle.bench.specs.Held.{lines_of};
ghost use Rattle.bench.specs.Level.{Done};
ghost use Rattle.bench.specs.Mixed.{own_step};
ghost use Rattle.bench.specs.Spans.{configs};
ghost use Rattle.bench.specs.Sweep.{sweep_families};
ghost use Rattle.bench.specs.Table.{families};

use crate::miss::Misses;
use crate::sweep::Sweep;
use crate::table::{MOST_LINES, Table};
use policy::suite::Suite;

impl<S: Suite> Sweep<'_, S> {
    // Sweeps the access over the levels of a table; answers the comparisons that are reported.
    pub(crate) fn table(
        &self,
        table: &Table,
        misses: &mut [Misses; MOST_LINES],
        words: &mut [u32],
    ) -> u64
        requires { table.now.need ≤ length words.old }
        ensures { Done (sweep_families (own_step S.suite) self.now.last self.now.access.address (families (configs (lines_of table.now))) words.old) (kind_number self.now.access.kind) (take (length (lines_of table.now)) misses.old) (take (length (lines_of table.now)) misses.new) words.new result }
    {
        let count = table.lines.len();
        self.families(&table.lines, &mut misses[..count], words)
    }
}
