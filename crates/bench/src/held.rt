// What a bench holds beside its policies.
ghost use Rattle.std.specs.Prelude.{◌≡◌, ◌+◌, ◌<◌, [], ◌∷◌, false, length};
ghost use Rattle.geometry.specs.Kind.{kind_number};
ghost use Rattle.bench.specs.Entries.{capped, counted};

use crate::miss::{Misses, count_miss};
use crate::table::{MOST_LINES, Table};
use crate::window::Windows;
use geometry::kind::AccessKind;

// Cached accesses of each kind, all accesses, the uncached ones, frames, and the comparisons that are reported.
#[derive(Clone, Copy)]
pub(crate) struct Tally {
    pub(crate) cached: [u32; 3],
    pub(crate) accesses: u32,
    pub(crate) uncached: u32,
    pub(crate) frames: u32,
    pub(crate) comparisons: u64,
    ghost kinds: { length cached ≡ 3 },
}

impl Tally {
    // Nothing is counted but frames.
    pub(crate) fn new(frames: u32) -> Tally
        ensures cached { result.cached ≡ 0 ∷ 0 ∷ 0 ∷ [] }
        ensures accesses { result.accesses ≡ 0 }
        ensures uncached { result.uncached ≡ 0 }
        ensures frames { result.frames ≡ frames }
        ensures comparisons { result.comparisons ≡ 0 }
    {
        Tally {
            cached: [0; 3],
            accesses: 0,
            uncached: 0,
            frames,
            comparisons: 0,
        }
    }

    // Counts a cached access of a kind, with its comparisons.
    pub(crate) fn count(&mut self, kind: AccessKind, comparisons: u64)
        requires { self.old.accesses < 4294967295 }
        ensures cached { self.new.cached ≡ counted (kind_number kind) false self.old.cached }
        ensures accesses { self.new.accesses ≡ self.old.accesses + 1 }
        ensures uncached { self.new.uncached ≡ self.old.uncached }
        ensures frames { self.new.frames ≡ self.old.frames }
        ensures comparisons { self.new.comparisons ≡ capped (self.old.comparisons + comparisons) }
    {
        count_miss(&mut self.cached, kind, false);
        self.accesses += 1;
        self.comparisons = self.comparisons.saturating_add(comparisons);
    }
}

// The misses of each line of the table, in an array that has a place for every line; `last` is the address of the last
// cached access since open or flush.
#[derive(Drop)]
pub(crate) struct Held {
    pub(crate) table: Table,
    pub(crate) misses: [Misses; MOST_LINES],
    pub(crate) windows: Windows,
    pub(crate) last: Option<u32>,
    pub(crate) tally: Tally,
}
