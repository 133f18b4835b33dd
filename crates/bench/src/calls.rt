// The calls that take the workspace.
ghost use Rattle.std.specs.Prelude.{◌≡◌, ◌<◌, ◌≤◌, length};
ghost use Rattle.geometry.specs.Kind.{kind_number};
ghost use Rattle.bench.specs.Called.{Called};
ghost use Rattle.bench.specs.Calls.{access as an-access, flush, open_table};
ghost use Rattle.bench.specs.Held.{bench_of, lines_of};
ghost use Rattle.bench.specs.Refused.{LinesFromOne};
ghost use Rattle.bench.specs.Spans.{configs};
ghost use Rattle.bench.specs.Spoken.{answer_of, reply};
ghost use Rattle.bench.specs.State.{restarted, touch_state};

use crate::bench::Bench;
use crate::held::{Held, Tally};
use crate::refused::Refused;
use crate::start::start_families;
use crate::sweep::Sweep;
use crate::table::{MOST_LINES, Table};
use geometry::line::Line;
use geometry::refusal::Refusal;
use policy::suite::Suite;
use standalone::access::{Access, CheckedAccess};

// Starts the rows of all levels of a table, and empties their direct-mapped caches.
fn start<S: Suite>(policies: &S, table: &Table, workspace: &mut [u32])
    requires { table.now.need ≤ length workspace.old }
    ensures { workspace.new ≡ restarted S.suite (configs (lines_of table.now)) workspace.old }
{
    start_families(policies, &table.lines, workspace);
}

// A cached access touches its tag in every cache, by the sweep.
fn touch<S: Suite>(policies: &S, held: &mut Held, workspace: &mut [u32], access: CheckedAccess)
    requires room { held.old.table.need ≤ length workspace.old }
    requires few { held.old.tally.accesses < 4294967295 }
    ensures { bench_of held.new workspace.new ≡ touch_state S.suite (record { kind = kind_number access.kind; address = access.address }) (bench_of held.old workspace.old) }
{
    let Held {
        table,
        misses,
        last,
        tally,
        ..
    } = held;
    let sweep = Sweep {
        policies,
        access,
        last: *last,
    };
    let compared = sweep.table(table, misses, workspace);
    tally.count(access.kind, compared);
    *last = Some(access.address);
}

impl<S: Suite> Bench<S> {
    // Opens a table: all counts and frames are 0, all rows are started, and the windows stay.
    pub fn open(&mut self, lines: &[Line], workspace: &mut [u32]) -> Result<(), Refused>
        ensures called { Called S.suite (open_table lines.now) (bench_of self.old.held workspace.old) (bench_of self.new.held workspace.new) (answer_of result) }
        ensures from_one { LinesFromOne result }
    {
        let table = Table::read(&self.policies, lines)?;
        if workspace.len() < table.need {
            return Err(Refusal::Memory.into());
        }
        start(&self.policies, &table, workspace);
        self.held.table = table;
        self.held.misses = [[0; 3]; MOST_LINES];
        self.held.last = None;
        self.held.tally = Tally::new(0);
        Ok(())
    }

    // An access: a cached one is a hit or a miss of every line, an uncached one is only counted.
    pub fn access(&mut self, access: &Access, workspace: &mut [u32]) -> Result<(), Refusal>
        ensures { Called S.suite (an-access access.now) (bench_of self.old.held workspace.old) (bench_of self.new.held workspace.new) (reply result) }
    {
        if workspace.len() < self.held.table.need {
            return Err(Refusal::Memory);
        }
        let checked = CheckedAccess::try_from(*access)?;
        if self.held.tally.accesses == u32::MAX {
            return Err(Refusal::Accesses);
        }
        if self.held.windows.cached(access.address) {
            touch(&self.policies, &mut self.held, workspace, checked);
        } else {
            self.held.tally.accesses += 1;
            self.held.tally.uncached = self.held.tally.uncached.saturating_add(1);
        }
        Ok(())
    }

    // Starts all rows again, and empties the direct-mapped caches.
    pub fn flush(&mut self, workspace: &mut [u32]) -> Result<(), Refusal>
        ensures { Called S.suite flush (bench_of self.old.held workspace.old) (bench_of self.new.held workspace.new) (reply result) }
    {
        if workspace.len() < self.held.table.need {
            return Err(Refusal::Memory);
        }
        start(&self.policies, &self.held.table, workspace);
        self.held.last = None;
        Ok(())
    }
}
