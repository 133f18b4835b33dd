// Runs the library's caches next to a plain simulator, and makes calls that it must refuse.
#![tactic(auto)]

mod campaign;
mod cases;
mod comparison;
mod event;
mod figures;
mod generator;
mod refusals;
mod set;
mod shape;
mod simulator;
mod stamped;
mod tally;
mod trace;
mod tree;
mod trial;
mod words;

use crate::campaign::try_rule;
use crate::refusals::{Borders, try_borders};
use crate::set::Set;
use crate::stamped::{Fifo, Lru, StampedSet};
use crate::tree::TreeSet;
use anyhow::ensure;

// Whether all trials of a rule agree; prints what they came to.
fn agrees<S: Set>(rt: &HostRuntime) -> anyhow::Result<bool> {
    let figures = try_rule::<S>(rt)?;
    println!(rt; "{}: {figures}", S::NAME)?;
    Ok(figures.differences == 0)
}

// Whether every call at a border answers as it must; prints how many do not.
fn refuses(rt: &HostRuntime) -> anyhow::Result<bool> {
    let Borders { cases, wrong } = try_borders(rt)?;
    println!(rt; "refusals: {cases} cases, {wrong} wrong")?;
    Ok(wrong == 0)
}

fn try_all(rt: &HostRuntime) -> anyhow::Result<()> {
    println!(rt; "Each policy runs next to a plain simulator over the same random accesses.")?;
    println!(rt;
        "Misses and hits of each kind, comparisons and every word of memory must be the same,"
    )?;
    println!(rt;
        "in a memory that is clear and just suffices, and in a longer one that was used before."
    )?;
    let mut sound = agrees::<StampedSet<Fifo>>(rt)?;
    sound &= agrees::<StampedSet<Lru>>(rt)?;
    sound &= agrees::<TreeSet>(rt)?;
    sound &= refuses(rt)?;
    ensure!(sound, "the library and the simulator differ");
    Ok(())
}

fn main(rt: HostRuntime) -> anyhow::Result<()> {
    try_all(&rt)
}
