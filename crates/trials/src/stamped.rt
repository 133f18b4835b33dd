// A set of FIFO or LRU, in which every resident has a time stamp.
use crate::set::Set;
use crate::tally::{Effect, Touch};
use std::alloc::{AllocError, Global};
use std::cmp::Reverse;
use std::marker::PhantomData;

// A rule by which the resident with the oldest stamp makes room.
pub trait Stamping {
    const NAME: &'static str;

    const LETTER: u8;

    // The stamp of a resident once it was hit.
    fn after_hit(stamp: u64, now: u64) -> u64;
}

// The stamp tells when the tag came in.
#[derive(Clone, Copy)]
pub struct Fifo;

impl Stamping for Fifo {
    const NAME: &'static str = "FIFO";

    const LETTER: u8 = b'F';

    fn after_hit(stamp: u64, _now: u64) -> u64 {
        stamp
    }
}

// The stamp tells when the tag was last used.
#[derive(Clone, Copy)]
pub struct Lru;

impl Stamping for Lru {
    const NAME: &'static str = "LRU";

    const LETTER: u8 = b'L';

    fn after_hit(_stamp: u64, now: u64) -> u64 {
        now
    }
}

#[derive(Clone, Copy)]
struct Resident {
    tag: u32,
    stamp: u64,
}

#[derive(Drop)]
pub struct StampedSet<R> {
    residents: Vec<Resident>,
    ways: usize,
    rule: PhantomData<R>,
}

impl<R: Stamping> StampedSet<R> {
    fn stamp_of(&self, tag: u32) -> Option<u64> {
        self.residents
            .iter()
            .find(|resident| resident.tag == tag)
            .map(|resident| resident.stamp)
    }

    // The residents with a newer stamp: a search meets these first.
    fn newer(&self, stamp: u64) -> usize {
        self.residents
            .iter()
            .filter(|resident| resident.stamp > stamp)
            .count()
    }

    fn restamp(&mut self, tag: u32, stamp: u64) {
        let mut residents = self.residents.iter_mut();
        if let Some(resident) = residents.find(|resident| resident.tag == tag) {
            resident.stamp = stamp;
        }
    }

    // Puts the resident over the one with the oldest stamp.
    fn replace_oldest(&mut self, newcomer: Resident) {
        let residents = self.residents.iter_mut();
        if let Some(oldest) = residents.min_by_key(|resident| resident.stamp) {
            *oldest = newcomer;
        }
    }

    fn admit(&mut self, newcomer: Resident) -> Result<Effect, AllocError> {
        if self.residents.len() < self.ways {
            self.residents.push(newcomer)?;
            return Ok(Effect::Filled);
        }
        self.replace_oldest(newcomer);
        Ok(Effect::Replaced)
    }
}

impl<R: Stamping> Set for StampedSet<R> {
    const NAME: &'static str = R::NAME;

    const LETTER: u8 = R::LETTER;

    const WAYS: &'static [u32] = &[1, 2, 3, 4, 5, 6, 7, 8, 9, 10, 11, 12, 13, 14, 15, 16];

    fn new(heap: Global, ways: usize) -> Result<StampedSet<R>, AllocError> {
        Ok(StampedSet {
            residents: Vec::new(heap),
            ways,
            rule: PhantomData,
        })
    }

    fn touch(&mut self, tag: u32, now: u64) -> Result<Touch, AllocError> {
        let Some(stamp) = self.stamp_of(tag) else {
            let comparisons = self.residents.len();
            let effect = self.admit(Resident { tag, stamp: now })?;
            return Ok(Touch {
                effect,
                comparisons,
            });
        };
        let comparisons = self.newer(stamp).saturating_add(1);
        self.restamp(tag, R::after_hit(stamp, now));
        Ok(Touch {
            effect: Effect::Hit,
            comparisons,
        })
    }

    // The number of residents, their tags from the newest on, zeros.
    fn words(&self, heap: Global) -> Result<Vec<u32>, AllocError> {
        let mut residents = self.residents.clone()?;
        residents.sort_unstable_by_key(|resident| Reverse(resident.stamp));
        let count = u32::try_from(residents.len()).unwrap_or(u32::MAX);
        let mut words = vec![in heap; count]?;
        words.extend(residents.iter().map(|resident| resident.tag))?;
        words.resize(self.ways.saturating_add(1), 0)?;
        Ok(words)
    }
}
