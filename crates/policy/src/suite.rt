// Three policies as one: two nesting ones and a further one, each asked for by its place.
ghost use Rattle.std.specs.Prelude.{◌≡◌, length};
ghost use Rattle.policy.specs.Three.{which};
ghost use Rattle.policy.specs.Suite.{Lawful, Suite, meaning, nest};

use crate::three::Member;

// Any three policies that keep their laws.
pub trait Suite {
    ghost suite: { Suite };

    // The first of the three that has the letter.
    fn find(&self, letter: u8) -> Option<Member>
        ensures { result ≡ which suite.three letter };

    // Whether that policy takes this number of ways.
    fn takes(&self, member: Member, ways: u64) -> bool
        ensures { result ≡ (meaning suite member).takes ways };

    // Makes the row one of that policy without residents.
    fn start(&self, member: Member, row: &mut [u32])
        ensures { row.new ≡ (meaning suite member).start (length row.old) };

    // Touches a row of that policy with the tag: whether it hit, and the comparisons.
    fn touch(&self, member: Member, row: &mut [u32], tag: u32) -> (bool, usize)
        ensures hit { result.0 ≡ ((meaning suite member).touch row.old tag).hit }
        ensures comparisons { result.1 ≡ ((meaning suite member).touch row.old tag).comparisons }
        ensures row { row.new ≡ ((meaning suite member).touch row.old tag).row };

    // Whether a narrow row of that policy still holds the first residents after a hit beyond its ways.
    fn keeps_nesting(&self, member: Member) -> bool
        ensures { result ≡ (nest suite member).keeps };

    // Fills the narrow row of that policy with the first residents of the wide one.
    fn truncate(&self, member: Member, wide: &[u32], narrow: &mut [u32])
        ensures { narrow.new ≡ (nest suite member).truncate (length narrow.old) wide.now };

    ghost lawful: { Lawful suite };
}
