// The misses of a line, by kind. Its hits are the cached accesses that it did not miss.
ghost use Rattle.std.specs.Prelude.{◌≡◌};
ghost use Rattle.geometry.specs.Kind.{kind_number};
ghost use Rattle.bench.specs.Entries.{counted};

use geometry::kind::AccessKind;

pub(crate) type Misses = [u32; 3];

// Counts a miss of a kind, unless it is a hit.
pub(crate) fn count_miss(misses: &mut Misses, kind: AccessKind, hit: bool)
    ensures { misses.new ≡ counted (kind_number kind) hit misses.old }
{
    if !hit {
        let count = &mut misses[kind.index()];
        *count = count.saturating_add(1);
    }
}
