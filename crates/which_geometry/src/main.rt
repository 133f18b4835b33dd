// Which cache did the console have? Runs six candidates over a small trace and compares their misses with a measurement.
#![tactic(auto)]

use policy::fifo::Fifo;
use policy::lru::Lru;
use policy::plru::Plru;
use policy::standard::STANDARD;
use policy::three::Policies;
use standalone::access::{Access, Counts};
use standalone::candidates::{Candidate, candidates};
use standalone::known::six_reads;
use standalone::run::run;

const MEASURED: u64 = 4;

// Enough words for the largest candidate: 4 sets of 1 + 4 words.
const WORDS: usize = 20;

fn describe(
    rt: &HostRuntime,
    candidate: &Candidate,
    counts: &Counts,
    comparisons: u64,
) -> anyhow::Result<()> {
    let policy = candidate.policy;
    let line = &candidate.line;
    println!(rt;
        "{policy} with {} sets of {} blocks of {} bytes, after {comparisons} comparisons:",
        line.sets, line.ways, line.block
    )?;
    let [fetch_hits, read_hits, store_hits] = counts.hits;
    let [fetch_misses, read_misses, store_misses] = counts.misses;
    println!(rt; "  fetches: {fetch_hits} hits, {fetch_misses} misses")?;
    println!(rt; "  reads:   {read_hits} hits, {read_misses} misses")?;
    println!(rt; "  stores:  {store_hits} hits, {store_misses} misses")?;
    if counts.all_misses() == MEASURED {
        println!(rt; "  This fits the measurement.")?;
    } else {
        println!(rt; "  This does not fit.")?;
    }
    Ok(())
}

fn try_candidate(
    rt: &HostRuntime,
    candidate: &Candidate,
    trace: &[Access],
) -> anyhow::Result<bool> {
    let mut memory = [0; WORDS];
    match run(&STANDARD, &candidate.line, trace, &mut memory) {
        Ok((counts, comparisons)) => {
            describe(rt, candidate, &counts, comparisons)?;
            Ok(counts.all_misses() == MEASURED)
        }
        Err(refusal) => {
            let number = refusal.number();
            println!(rt; "A candidate was refused with number {number}.")?;
            Ok(false)
        }
    }
}

fn search(rt: &HostRuntime) -> anyhow::Result<()> {
    let trace = six_reads();
    println!(rt; "A console was measured while it read six addresses in turn (in hexadecimal):")?;
    for access in &trace {
        print!(rt; " {:x}", access.address)?;
    }
    println!(rt;
        "\nIts cache missed {MEASURED} of them. Each candidate is run alone over the same reads.\n"
    )?;
    let mut fitting = 0u32;
    for candidate in &candidates() {
        if try_candidate(rt, candidate, &trace)? {
            fitting = fitting.saturating_add(1);
        }
    }
    println!(rt; "\n{fitting} of 6 candidates fit the measurement.")?;
    Ok(())
}

fn main(rt: HostRuntime) -> anyhow::Result<()> {
    search(&rt)
}
