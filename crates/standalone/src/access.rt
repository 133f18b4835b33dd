// An access, and counts by its kind.
ghost use Rattle.std.specs.Prelude.{◌≡◌, ◌+◌, ◌^◌, ◌<◌, if◌then◌else◌, slice_index, sum};
ghost use Rattle.geometry.specs.Kind.{kind_number};
ghost use Rattle.standalone.specs.Checked.{CheckedAs};
ghost use Rattle.standalone.specs.Counting.{one_more};

use geometry::kind::AccessKind;
use geometry::refusal::Refusal;

// A kind (0 fetch, 1 read, 2 store) and an address. Both may be any numbers; a call refuses what is not allowed.
#[derive(Clone, Copy, PartialEq, Eq, Debug)]
pub struct Access {
    pub kind: u8,
    pub address: u64,
}

// An access that is allowed: a kind, and an address of 32 bits.
#[derive(Clone, Copy, PartialEq, Eq, Debug)]
pub struct CheckedAccess {
    pub kind: AccessKind,
    pub address: u32,
}

impl TryFrom<Access> for CheckedAccess {
    type Error = Refusal;

    ghost try_from_gives = { CheckedAs };

    fn try_from(access: Access) -> Result<Self, Refusal> {
        let kind = AccessKind::try_from(access.kind)?;
        let Ok(address) = u32::try_from(access.address) else {
            return Err(Refusal::Address);
        };
        Ok(CheckedAccess { kind, address })
    }
}

// Misses and hits of each kind.
#[derive(Clone, Copy, PartialEq, Eq, Default, Debug)]
pub struct Counts {
    pub misses: [u32; 3],
    pub hits: [u32; 3],
}

impl Counts {
    // The misses of all kinds.
    pub fn all_misses(&self) -> u64
        ensures { result ≡ sum self.now.misses }
    {
        self.misses.iter().map(|count| u64::from(*count)).sum()
    }

    // The hits of all kinds.
    pub fn all_hits(&self) -> u64
        ensures { result ≡ sum self.now.hits }
    {
        self.hits.iter().map(|count| u64::from(*count)).sum()
    }

    // One hit or miss more of a kind.
    pub(crate) fn add(&mut self, kind: AccessKind, hit: bool)
        requires misses_fit { slice_index self.old.misses (kind_number kind) + 1 < 2 ^ 32 }
        requires hits_fit { slice_index self.old.hits (kind_number kind) + 1 < 2 ^ 32 }
        ensures misses { self.new.misses ≡ (if hit then self.old.misses else one_more (kind_number kind) self.old.misses) }
        ensures hits { self.new.hits ≡ (if hit then one_more (kind_number kind) self.old.hits else self.old.hits) }
    {
        if hit {
            self.hits[kind.index()] += 1;
        } else {
            self.misses[kind.index()] += 1;
        }
    }
}
