// A set of tree PLRU: an interval of leaves is halved, and each halving has a flag.
use crate::set::Set;
use crate::tally::{Effect, Touch};
use std::alloc::{AllocError, Global};
use std::iter;

#[derive(Drop)]
pub struct TreeSet {
    // the tag of each leaf that is filled
    leaves: Vec<Option<u32>>,
    // of each inner node from 1 on; `true` points to the upper half of the leaves below it
    flags: Vec<bool>,
}

// Halves an interval of leaves until one is left, and answers that one. Each turn is told the inner node and the
// middle of its leaves, and says whether it goes to the upper half.
fn descend<F: FnMut(usize, usize) -> bool>(leaves: usize, mut turn: F) -> usize
    requires { F.IsAlwaysCallable turn }
{
    let mut low = 0;
    let mut high = leaves;
    let mut node = 1usize;
    while high - low > 1 {
        let middle = low + (high - low) / 2;
        let upper = turn(node, middle);
        node = node.saturating_mul(2).saturating_add(usize::from(upper));
        if upper {
            low = middle;
        } else {
            high = middle;
        }
    }
    low
}

// The bits with one more below them.
fn with_bit(bits: u32, bit: bool) -> u32 {
    bits << 1 | u32::from(bit)
}

impl TreeSet {
    // The leaf that the flags point to.
    fn pointed_at(&self) -> usize {
        descend(self.leaves.len(), |node, _middle| {
            self.flags.get(node).copied().unwrap_or(false)
        })
    }

    // Points every flag above a leaf to the half without it.
    fn point_away(&mut self, leaf: usize) {
        descend(self.leaves.len(), |node, middle| {
            let upper = leaf >= middle;
            if let Some(flag) = self.flags.get_mut(node) {
                *flag = !upper;
            }
            upper
        });
    }

    // Puts the tag into a leaf: what that did.
    fn put(&mut self, leaf: usize, tag: u32) -> Effect {
        match self.leaves.get_mut(leaf).map(|place| place.replace(tag)) {
            Some(None) => Effect::Filled,
            _ => Effect::Replaced,
        }
    }

    // The filled leaves that a search looks at, lowest first, up to the one with the tag.
    fn comparisons(&self, found: Option<usize>) -> usize {
        let end = found.map_or(self.leaves.len(), |leaf| leaf.saturating_add(1));
        self.leaves.iter().take(end).flatten().count()
    }

    // Bit k - 1 is the flag of node k, bit 16 + i says whether leaf i is filled.
    fn head(&self) -> u32 {
        let flags = self.flags.iter().skip(1).rev().copied().fold(0, with_bit);
        let filled = self
            .leaves
            .iter()
            .rev()
            .map(Option::is_some)
            .fold(0, with_bit);
        filled << 16 | flags
    }
}

impl Set for TreeSet {
    const NAME: &'static str = "tree PLRU";

    const LETTER: u8 = b'P';

    const WAYS: &'static [u32] = &[1, 2, 4, 8, 16];

    fn new(heap: Global, ways: usize) -> Result<TreeSet, AllocError> {
        Ok(TreeSet {
            leaves: vec![in heap; None; ways]?,
            flags: vec![in heap; false; ways]?,
        })
    }

    fn touch(&mut self, tag: u32, _now: u64) -> Result<Touch, AllocError> {
        let found = self.leaves.iter().position(|leaf| *leaf == Some(tag));
        let comparisons = self.comparisons(found);
        let (leaf, effect) = match found {
            Some(leaf) => (leaf, Effect::Hit),
            None => {
                let leaf = self.pointed_at();
                (leaf, self.put(leaf, tag))
            }
        };
        self.point_away(leaf);
        Ok(Touch {
            effect,
            comparisons,
        })
    }

    // The head word, then the tag of each leaf, or 0.
    fn words(&self, heap: Global) -> Result<Vec<u32>, AllocError> {
        let tags = self.leaves.iter().map(|leaf| leaf.unwrap_or(0));
        iter::once(self.head()).chain(tags).collect(heap)
    }
}
