// Three policies together: two nesting ones and a further one.
ghost use Rattle.policy.specs.Suite.{suite_of};
ghost use Rattle.policy.specs.SuiteLaws.{lawful};
ghost use Rattle.policy.specs.Three.{three};

use crate::suite::Suite;
use crate::traits::{Nesting, Policy};

// Which of the three.
#[derive(Clone, Copy, PartialEq, Eq, Debug)]
pub enum Member {
    First,
    Second,
    Further,
}

// The policies of one bench or one table.
#[derive(Clone, Copy)]
pub struct Policies<A: Nesting, B: Nesting, C: Policy> {
    pub first: A,
    pub second: B,
    pub further: C,
}

impl<A: Nesting, B: Nesting, C: Policy> Suite for Policies<A, B, C> {
    ghost suite = { suite_of (three A.Policy.meaning B.Policy.meaning C.Policy.meaning) A.Nesting.nest B.Nesting.nest };

    ghost lawful = { lawful _ A.Policy.lawful B.Policy.lawful C.Policy.lawful A.Nesting.nests B.Nesting.nests };

    fn find(&self, letter: u8) -> Option<Member> {
        if letter == self.first.letter() {
            Some(Member::First)
        } else if letter == self.second.letter() {
            Some(Member::Second)
        } else if letter == self.further.letter() {
            Some(Member::Further)
        } else {
            None
        }
    }

    fn takes(&self, member: Member, ways: u64) -> bool {
        match member {
            Member::First => self.first.takes(ways),
            Member::Second => self.second.takes(ways),
            Member::Further => self.further.takes(ways),
        }
    }

    fn start(&self, member: Member, row: &mut [u32]) {
        match member {
            Member::First => self.first.start(row),
            Member::Second => self.second.start(row),
            Member::Further => self.further.start(row),
        }
    }

    // Inlined, since a sweep knows the member where it touches a row.
    #[inline(always)]
    fn touch(&self, member: Member, row: &mut [u32], tag: u32) -> (bool, usize) {
        match member {
            Member::First => self.first.touch(row, tag),
            Member::Second => self.second.touch(row, tag),
            Member::Further => self.further.touch(row, tag),
        }
    }

    fn keeps_nesting(&self, member: Member) -> bool {
        match member {
            Member::First => self.first.keeps_nesting(),
            Member::Second | Member::Further => self.second.keeps_nesting(),
        }
    }

    fn truncate(&self, member: Member, wide: &[u32], narrow: &mut [u32]) {
        match member {
            Member::First => self.first.truncate(wide, narrow),
            Member::Second | Member::Further => self.second.truncate(wide, narrow),
        }
    }
}
