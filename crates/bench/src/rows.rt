// The rows of one set in the lines of one level.
ghost use Rattle.std.specs.Prelude.{◌≡◌, ◌≤◌, length};
ghost use Rattle.geometry.specs.Kind.{kind_number};
ghost use Rattle.bench.specs.OpenLines.{kins_of};
ghost use Rattle.bench.specs.Entries.{entries};
ghost use Rattle.bench.specs.Group.{RowsSwept, SetSwept};
ghost use Rattle.bench.specs.Lead.{leads_seen};
ghost use Rattle.bench.specs.Mixed.{no_leads, own_step};
ghost use Rattle.bench.specs.Words.{lines_words, wide};

use crate::lead::Leads;
use crate::level::Visit;
use crate::miss::{Misses, count_miss};
use crate::open_line::OpenLine;
use crate::owned::step_owned;
use policy::suite::Suite;

impl<S: Suite> Visit<'_, S> {
    // Sweeps the rows of the set, the widest line first, and counts misses; answers the comparisons that are reported.
    pub(crate) fn set(
        &self,
        lines: &[OpenLine],
        misses: &mut [Misses],
        words: &mut [u32],
        leads: &mut Leads,
    ) -> u64
        requires long { length misses.old ≡ length lines.now }
        requires room { lines_words self.now.place.sets (wide (kins_of lines.now)) ≤ length words.old }
        requires fresh { leads_seen leads.old ≡ no_leads }
        ensures swept { SetSwept (own_step S.suite) self.now.place.sets self.now.place.set self.now.place.tag (kind_number self.now.place.kind) (kins_of lines.now) misses.old words.old misses.new words.new result (leads_seen leads.new) }
        ensures rows { RowsSwept (own_step S.suite) self.now.place.sets self.now.place.set self.now.place.tag (kind_number self.now.place.kind) (entries (kins_of lines.now) misses.old) words.old (entries (kins_of lines.now) misses.new) words.new result (leads_seen leads.new) }
    {
        let Some((line, lines)) = lines.split_first() else {
            return 0;
        };
        let Some((mine, misses)) = misses.split_first_mut() else {
            return 0;
        };
        let place = self.place;
        let (member, ways) = (line.geometry.member, line.geometry.ways);
        if ways <= 1 {
            let compared = self.set(lines, misses, words, leads);
            count_miss(mine, place.kind, false);
            return compared;
        }
        let width = ways + 2;
        let size = place.sets * width;
        let (rows, words) = words.split_at_mut(size);
        let wider = self.set(lines, misses, words, leads);
        let from = place.set * width;
        let to = from + width;
        let row = &mut rows[from..to];
        let (hit, compared) = step_owned(self.policies, member, row, place.tag, leads);
        count_miss(mine, place.kind, hit);
        wider.saturating_add(compared as u64)
    }
}
