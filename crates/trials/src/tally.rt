// What a simulated cache counts.
use crate::event::Kind;

// What one touch of a set did.
#[derive(Clone, Copy, PartialEq, Eq, Debug)]
pub enum Effect {
    Hit,
    // a free place took the tag
    Filled,
    // a resident made room for the tag
    Replaced,
}

#[derive(Clone, Copy)]
pub struct Touch {
    pub effect: Effect,
    pub comparisons: usize,
}

// Misses and hits of each kind, comparisons in all, and the residents that made room.
#[derive(Clone, Copy, Default)]
pub struct Tally {
    pub misses: [u32; 3],
    pub hits: [u32; 3],
    pub comparisons: u64,
    pub replaced: u64,
}

// The counts of all kinds together.
pub fn in_all(counts: &[u32; 3]) -> u64 {
    counts.iter().map(|count| u64::from(*count)).sum()
}

fn one_more(counts: &mut [u32; 3], kind: Kind) {
    let index = kind.index() as usize;
    counts[index] = counts[index].saturating_add(1);
}

impl Tally {
    // Counts a touch for an access of a kind.
    pub fn add(&mut self, kind: Kind, touch: Touch) {
        match touch.effect {
            Effect::Hit => one_more(&mut self.hits, kind),
            Effect::Filled => one_more(&mut self.misses, kind),
            Effect::Replaced => {
                one_more(&mut self.misses, kind);
                self.replaced = self.replaced.saturating_add(1);
            }
        }
        self.comparisons = self.comparisons.saturating_add(touch.comparisons as u64);
    }
}
