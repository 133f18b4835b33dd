// A replacement policy, and a nesting one.
ghost use Rattle.std.specs.Prelude.{◌≡◌, length};
ghost use Rattle.policy.specs.Policy.{Laws, Meaning};
ghost use Rattle.policy.specs.Nesting.{Nest, Nests};

// A policy keeps one row of words for each set: a head word of its own and a word for each way.
// Its methods take a row of any length with any contents.
pub trait Policy {
    ghost meaning: { Meaning };

    // The letter that names the policy.
    fn letter(&self) -> u8
        ensures { result ≡ meaning.letter };

    // Whether the policy takes this number of ways.
    fn takes(&self, ways: u64) -> bool
        ensures { result ≡ meaning.takes ways };

    // Makes the row one without residents.
    fn start(&self, row: &mut [u32])
        ensures { row.new ≡ meaning.start (length row.old) };

    // Looks for the tag and makes it resident: whether it was, and the comparisons.
    fn touch(&self, row: &mut [u32], tag: u32) -> (bool, usize)
        ensures hit { result.0 ≡ (meaning.touch row.old tag).hit }
        ensures comparisons { result.1 ≡ (meaning.touch row.old tag).comparisons }
        ensures row { row.new ≡ (meaning.touch row.old tag).row };

    ghost lawful: { Laws meaning };
}

// A policy under which a narrow row holds the first residents of a wide one.
pub trait Nesting: Policy {
    ghost nest: { Nest };

    // Whether a narrow row still holds the first residents after a hit beyond its ways.
    fn keeps_nesting(&self) -> bool
        ensures { result ≡ nest.keeps };

    // Fills the narrow row with the first residents of the wide one.
    fn truncate(&self, wide: &[u32], narrow: &mut [u32])
        ensures { narrow.new ≡ nest.truncate (length narrow.old) wide.now };

    ghost nests: { Nests Self.Policy.meaning nest };
}
