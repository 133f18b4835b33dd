// One set of a simulated cache, under a rule that says how a full set makes room.
use crate::tally::Touch;
use std::alloc::{AllocError, Global};

pub trait Set: Drop {
    // The rule's name, its letter in a table line, and the numbers of ways that it takes.
    const NAME: &'static str;

    const LETTER: u8;

    const WAYS: &'static [u32];

    // A set without residents.
    fn new(heap: Global, ways: usize) -> Result<Self, AllocError>
    where
        Self: Sized;

    // Touches a tag at a time that is later than all before.
    fn touch(&mut self, tag: u32, now: u64) -> Result<Touch, AllocError>;

    // The words that stand for the set.
    fn words(&self, heap: Global) -> Result<Vec<u32>, AllocError>;
}
