// Least recently used.
ghost use Rattle.policy.specs.Stack.{lru_meaning, lru_nest};
ghost use Rattle.policy.specs.StackLaws.{lru_lawful, lru_nests};

use crate::stack::{admit, copy_first, find, promote, residents};
use crate::traits::{Nesting, Policy};

// Least recently used. Its letter is L.
#[derive(Clone, Copy)]
pub struct Lru;

impl Policy for Lru {
    ghost meaning = { lru_meaning };

    ghost lawful = { lru_lawful };

    fn letter(&self) -> u8 {
        b'L'
    }

    fn takes(&self, ways: u64) -> bool {
        matches!(ways, 1..=16)
    }

    fn start(&self, row: &mut [u32]) {
        row.fill(0);
    }

    fn touch(&self, row: &mut [u32], tag: u32) -> (bool, usize) {
        let (hit, comparisons) = find(residents(row), tag);
        if hit {
            promote(row, comparisons, tag);
        } else {
            admit(row, tag);
        }
        (hit, comparisons)
    }
}

impl Nesting for Lru {
    ghost nest = { lru_nest };

    ghost nests = { lru_nests };

    fn keeps_nesting(&self) -> bool {
        true
    }

    fn truncate(&self, wide: &[u32], narrow: &mut [u32]) {
        copy_first(wide, narrow);
    }
}
