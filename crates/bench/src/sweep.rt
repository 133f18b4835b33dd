// The sweep of one access over the levels of a table.
ghost use Rattle.std.specs.Prelude.{◌≡◌, length};
ghost use Rattle.geometry.specs.Address.{block_in};
ghost use Rattle.geometry.specs.Kind.{kind_number};
ghost use Rattle.bench.specs.Done.{FamiliesDone, LevelsDone};
ghost use Rattle.bench.specs.Mixed.{own_step};
ghost use Rattle.bench.specs.Spans.{FamiliesFit, LevelsFit};
ghost use Rattle.bench.specs.Sweep.{same_block};

use crate::level::Visit;
use crate::miss::Misses;
use crate::open_line::{OpenLine, Span};
use crate::place::Place;
use geometry::geometry::Geometry;
use policy::suite::Suite;
use standalone::access::CheckedAccess;

// A cached access, the policies, and the address of the cached access before it, if there is one.
#[derive(Clone, Copy)]
pub(crate) struct Sweep<'a, S: Suite> {
    pub(crate) policies: &'a S,
    pub(crate) access: CheckedAccess,
    pub(crate) last: Option<u32>,
}

impl<S: Suite> Sweep<'_, S> {
    // Visits the levels of one block size until a direct-mapped cache hits; answers the comparisons that are reported.
    fn levels(&self, lines: &[OpenLine], misses: &mut [Misses], words: &mut [u32]) -> u64
        requires fit { LevelsFit lines.now (length words.old) }
        requires long { length misses.old ≡ length lines.now }
        ensures { LevelsDone (own_step S.suite) self.now.access.address (kind_number self.now.access.kind) lines.now misses.old words.old misses.new words.new result }
    {
        let Some(first) = lines.first() else {
            return 0;
        };
        let Span {
            lines: count,
            words: size,
        } = first.level;
        let place = Place::of(&first.geometry, self.access);
        let policies = self.policies;
        let (here, later) = lines.split_at(count);
        let (misses, later_misses) = misses.split_at_mut(count);
        let (words, later_words) = words.split_at_mut(size);
        let (hit, compared) = Visit { policies, place }.level(here, misses, words);
        if hit {
            return compared;
        }
        compared.saturating_add(self.levels(later, later_misses, later_words))
    }

    // Whether the access lies in the block of the last one.
    fn repeats(&self, geometry: &Geometry) -> bool
        ensures { result ≡ same_block self.now.last self.now.access.address (block_in geometry.now) }
    {
        match self.last {
            None => false,
            Some(last) => geometry.block_of(last) == geometry.block_of(self.access.address),
        }
    }

    // Sweeps the levels, by rising block size, until one at which the access lies in the block of the last one.
    // Answers the comparisons that are reported.
    pub(crate) fn families(
        &self,
        lines: &[OpenLine],
        misses: &mut [Misses],
        words: &mut [u32],
    ) -> u64
        requires fit { FamiliesFit lines.now (length words.old) }
        requires long { length misses.old ≡ length lines.now }
        ensures { FamiliesDone (own_step S.suite) self.now.last self.now.access.address (kind_number self.now.access.kind) lines.now misses.old words.old misses.new words.new result }
    {
        let Some(first) = lines.first() else {
            return 0;
        };
        if self.repeats(&first.geometry) {
            return 0;
        }
        let Span {
            lines: count,
            words: size,
        } = first.family;
        let (here, later) = lines.split_at(count);
        let (misses, later_misses) = misses.split_at_mut(count);
        let (words, later_words) = words.split_at_mut(size);
        let compared = self.levels(here, misses, words);
        compared.saturating_add(self.families(later, later_misses, later_words))
    }
}
