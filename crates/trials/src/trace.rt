// Random traces: sequential runs, returns to recent addresses, blocks that meet in few sets, and jumps.
use crate::event::{Event, Kind};
use crate::generator::Generator;
use std::alloc::{AllocError, Global};

// How far back a return reaches, in events.
const REACH: u32 = 48;

// How many blocks meet in one set.
const RIVALS: u32 = 24;

fn some_kind(generator: &mut Generator) -> Kind {
    match generator.below(8) {
        0..=3 => Kind::Fetch,
        4..=5 => Kind::Read,
        _ => Kind::Store,
    }
}

// Anywhere in the 32 bits, and now and then close to one of their ends.
fn jump(generator: &mut Generator) -> u32 {
    match generator.below(8) {
        0 => generator.below(64),
        1 => u32::MAX - generator.below(64),
        _ => generator.next(),
    }
}

// One of the last addresses, or a jump where there is none.
fn again(generator: &mut Generator, events: &[Event]) -> u32 {
    let back = generator.below(REACH) as usize;
    match events.iter().rev().nth(back) {
        Some(event) => event.address,
        None => jump(generator),
    }
}

// The next address; `stride` bytes further on, an address falls into the same set.
fn next_address(generator: &mut Generator, events: &[Event], home: u32, stride: u32) -> u32 {
    match generator.below(32) {
        0..=11 => events
            .last()
            .map_or(home, |event| event.address.wrapping_add(4)),
        12..=19 => again(generator, events),
        20..=30 => {
            let rival = generator.below(RIVALS);
            let offset = generator.below(32);
            home.wrapping_add(rival.wrapping_mul(stride))
                .wrapping_add(offset)
        }
        _ => jump(generator),
    }
}

// A trace of so many events. Its home, where rivals meet, moves now and then.
pub fn random_trace(
    heap: Global,
    seed: u64,
    stride: u32,
    length: u32,
) -> Result<Vec<Event>, AllocError> {
    let mut generator = Generator::new(seed);
    let mut home = generator.next();
    let mut events = Vec::new(heap);
    for _ in 0..length {
        if generator.below(512) == 0 {
            home = jump(&mut generator);
        }
        let address = next_address(&mut generator, &events, home, stride);
        let kind = some_kind(&mut generator);
        events.push(Event { kind, address })?;
    }
    Ok(events)
}
