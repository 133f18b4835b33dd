// All trials of a rule: every number of ways that it takes, in caches of several sizes, over several traces.
use crate::comparison::{Expected, compare};
use crate::figures::Figures;
use crate::set::Set;
use crate::shape::Shape;
use crate::trial::{Trial, accesses_of};
use crate::words::used_words;
use anyhow::Context;

// Numbers of sets and bytes in a block.
const SIZES: [(u32, u32); 9] = [
    (1, 1),
    (1, 16),
    (2, 1),
    (4, 16),
    (16, 32),
    (64, 4),
    (256, 64),
    (1024, 1024),
    (16384, 1024),
];

const SEEDS: [u64; 8] = [1, 20, 300, 4000, 50000, 600000, 7000000, 80000000];

// The words of a memory that no row takes.
const BEYOND: usize = 37;

// Two runs: in a memory that just suffices and is clear, and in one that is longer and was used.
fn try_trial<S: Set>(
    rt: &HostRuntime,
    shape: Shape,
    seed: u64,
    figures: &mut Figures,
) -> anyhow::Result<()> {
    let heap = rt.alloc();
    let trial = Trial {
        letter: S::LETTER,
        shape,
        seed,
    };
    let events = trial.trace(heap)?;
    let accesses = accesses_of(heap, &events)?;
    let expected = Expected::of::<S>(heap, shape, &events)?;
    let clear = vec![in heap; 0; shape.words()]?;
    let used = used_words(heap, shape.words().saturating_add(BEYOND), seed)?;
    for memory in [&clear, &used] {
        let differences = compare(rt, &trial, &accesses, &expected, memory)?;
        figures.add(&expected.tally, differences);
    }
    Ok(())
}

// All trials of a rule.
pub fn try_rule<S: Set>(rt: &HostRuntime) -> anyhow::Result<Figures> {
    let mut figures = Figures::default();
    for (sets, block) in SIZES {
        for ways in S::WAYS {
            let shape = Shape::new(sets, block, *ways).context("a shape without sets or bytes")?;
            for seed in SEEDS {
                try_trial::<S>(rt, shape, seed, &mut figures)?;
            }
        }
    }
    Ok(figures)
}
