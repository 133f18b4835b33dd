// One level in a sweep.
ghost use Rattle.std.specs.Prelude.{◌≡◌, ◌≤◌, length};
ghost use Rattle.geometry.specs.Kind.{kind_number};
ghost use Rattle.bench.specs.Direct.{direct_hit};
ghost use Rattle.bench.specs.Entries.{entries};
ghost use Rattle.bench.specs.OpenLines.{kins_of};
ghost use Rattle.bench.specs.Level.{Done, LevelVisited, level_words, visit};
ghost use Rattle.bench.specs.Mixed.{own_step};

use crate::direct::visit_direct;
use crate::lead::Leads;
use crate::miss::Misses;
use crate::open_line::OpenLine;
use crate::place::Place;
use policy::suite::Suite;

// The visit of a level: the policies, and where the access falls there.
#[derive(Clone, Copy)]
pub(crate) struct Visit<'a, S: Suite> {
    pub(crate) policies: &'a S,
    pub(crate) place: Place,
}

impl<S: Suite> Visit<'_, S> {
    // Visits a level: whether its direct-mapped cache hit, and the comparisons that are reported.
    pub(crate) fn level(
        &self,
        lines: &[OpenLine],
        misses: &mut [Misses],
        words: &mut [u32],
    ) -> (bool, u64)
        requires long { length misses.old ≡ length lines.now }
        requires room { level_words self.now.place.sets (kins_of lines.now) ≤ length words.old }
        ensures hit { result.0 ≡ direct_hit words.old self.now.place.set self.now.place.tag }
        ensures visited { Done (visit (own_step S.suite) self.now.place.sets self.now.place.set self.now.place.tag (kins_of lines.now) words.old) (kind_number self.now.place.kind) misses.old misses.new words.new result.1 }
        ensures level { LevelVisited (own_step S.suite) self.now.place.sets self.now.place.set self.now.place.tag (kind_number self.now.place.kind) (entries (kins_of lines.now) misses.old) words.old (entries (kins_of lines.now) misses.new) words.new result.1 }
    {
        let place = self.place;
        let (hit, seen) = visit_direct(words, place.set, place.tag);
        if hit {
            return (true, seen);
        }
        let mut leads = Leads::none();
        let (_, rows) = words.split_at_mut(2 * place.sets);
        let compared = self.set(lines, misses, rows, &mut leads);
        (false, compared.saturating_add(seen))
    }
}
