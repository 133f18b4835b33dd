// One trial: the letter of a policy and a shape, run over the trace of a seed.
use crate::event::Event;
use crate::shape::Shape;
use crate::trace::random_trace;
use geometry::line::Line;
use standalone::access::Access;
use std::alloc::{AllocError, Global};
use std::fmt;

// The accesses of each trace.
pub const LENGTH: u32 = 4000;

#[derive(Clone, Copy)]
pub struct Trial {
    pub letter: u8,
    pub shape: Shape,
    pub seed: u64,
}

impl Trial {
    // The table line that asks the library for the same cache.
    pub fn line(&self) -> Line {
        Line {
            letter: self.letter,
            sets: u64::from(self.shape.sets),
            block: u64::from(self.shape.block),
            ways: u64::from(self.shape.ways),
        }
    }

    // The trace of the trial: its rivals meet in one set.
    pub fn trace(&self, heap: Global) -> Result<Vec<Event>, AllocError> {
        let stride = self.shape.sets.wrapping_mul(self.shape.block);
        random_trace(heap, self.seed, stride, LENGTH)
    }
}

// The events as the library takes them.
pub fn accesses_of(heap: Global, events: &[Event]) -> Result<Vec<Access>, AllocError> {
    events
        .iter()
        .map(|event| Access {
            kind: event.kind.index(),
            address: u64::from(event.address),
        })
        .collect(heap)
}

impl fmt::Display for Trial {
    fn fmt<W: fmt::Write>(&self, f: &mut fmt::Formatter<W>) -> fmt::Result {
        let letter = char::from(self.letter);
        let Shape { sets, block, ways } = self.shape;
        let seed = self.seed;
        write!(f, "{letter} {sets} {block} {ways}, seed {seed}")
    }
}
