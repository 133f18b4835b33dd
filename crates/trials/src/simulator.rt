// A plain cache: its sets, a clock, and what it counted.
use crate::event::Event;
use crate::set::Set;
use crate::shape::Shape;
use crate::tally::Tally;
use std::alloc::{AllocError, Global};

#[derive(Drop)]
pub struct Simulator<S> {
    shape: Shape,
    sets: Vec<S>,
    clock: u64,
    tally: Tally,
}

impl<S: Set> Simulator<S> {
    pub fn new(heap: Global, shape: Shape) -> Result<Simulator<S>, AllocError> {
        let ways = shape.ways as usize;
        Ok(Simulator {
            shape,
            sets: (0..shape.sets)
                .map(|_| S::new(heap, ways))
                .try_collect(heap)?,
            clock: 0,
            tally: Tally::default(),
        })
    }

    fn access(&mut self, event: Event) -> Result<(), AllocError> {
        self.clock = self.clock.saturating_add(1);
        let block = event.address / self.shape.block;
        let set = block % self.shape.sets;
        let tag = block / self.shape.sets;
        if let Some(set) = self.sets.get_mut(set as usize) {
            let touch = set.touch(tag, self.clock)?;
            self.tally.add(event.kind, touch);
        }
        Ok(())
    }

    // Goes through the events, and answers the counts.
    pub fn run(&mut self, events: &[Event]) -> Result<Tally, AllocError> {
        for event in events {
            self.access(*event)?;
        }
        Ok(self.tally)
    }

    // The words that stand for all sets, from the lowest set on.
    pub fn words(&self, heap: Global) -> Result<Vec<u32>, AllocError> {
        let mut words = Vec::new(heap);
        for set in &self.sets {
            words.extend_from_slice(&set.words(heap)?)?;
        }
        Ok(words)
    }
}
