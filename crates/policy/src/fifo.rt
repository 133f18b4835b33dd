// First in, first out.
ghost use Rattle.policy.specs.Stack.{fifo_meaning, fifo_nest};
ghost use Rattle.policy.specs.StackLaws.{fifo_lawful, fifo_nests};

use crate::stack::{admit, copy_first, find, keep, residents};
use crate::traits::{Nesting, Policy};

// First in, first out. Its letter is F.
#[derive(Clone, Copy)]
pub struct Fifo;

impl Policy for Fifo {
    ghost meaning = { fifo_meaning };

    ghost lawful = { fifo_lawful };

    fn letter(&self) -> u8 {
        b'F'
    }

    fn takes(&self, ways: u64) -> bool {
        matches!(ways, 1..=16)
    }

    fn start(&self, row: &mut [u32]) {
        row.fill(0);
    }

    fn touch(&self, row: &mut [u32], tag: u32) -> (bool, usize) {
        let (hit, comparisons) = find(residents(row), tag);
        if hit {
            keep(row, tag);
        } else {
            admit(row, tag);
        }
        (hit, comparisons)
    }
}

impl Nesting for Fifo {
    ghost nest = { fifo_nest };

    ghost nests = { fifo_nests };

    fn keeps_nesting(&self) -> bool {
        false
    }

    fn truncate(&self, wide: &[u32], narrow: &mut [u32]) {
        copy_first(wide, narrow);
    }
}
