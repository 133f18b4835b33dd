// Six candidate caches over one small trace in a single pass, and what the pass saves against the caches run alone.
#![tactic(auto)]

use bench::bench::Bench;
use geometry::line::Line;
use policy::fifo::Fifo;
use policy::lru::Lru;
use policy::plru::Plru;
use policy::standard::STANDARD;
use policy::three::Policies;
use standalone::access::{Access, Counts};
use standalone::candidates::candidates;
use standalone::known::six_reads;
use standalone::run::run;

// Enough words for the largest candidate alone: 4 sets of 1 + 4 words.
const WORDS: usize = 20;

// All candidates in one workspace: 4 sets of 2 words for their level, and of 2 + ways words for each line.
const TABLE_WORDS: usize = 120;

// The direct-mapped cache of the level compares once for each read but the first.
const DIRECT: u64 = 5;

// The comparisons of a candidate that is run alone, or 0 where it is refused.
fn alone(line: &Line, trace: &[Access]) -> u64 {
    let mut memory = [0; WORDS];
    match run(&STANDARD, line, trace, &mut memory) {
        Ok((_counts, comparisons)) => comparisons,
        Err(_refusal) => 0,
    }
}

// The comparisons of all candidates alone, with the direct-mapped cache of their level.
fn separate(lines: &[Line], trace: &[Access]) -> u64 {
    lines
        .iter()
        .map(|line| alone(line, trace))
        .fold(DIRECT, u64::saturating_add)
}

// All candidates in one pass: their counts, and the comparisons of the pass.
fn one_pass(lines: &[Line; 6], trace: &[Access]) -> ([Counts; 6], u64) {
    let mut workspace = [0; TABLE_WORDS];
    let mut bench = Bench::new(STANDARD);
    let _ = bench.open(lines, &mut workspace);
    for access in trace {
        let _ = bench.access(access, &mut workspace);
    }
    let mut counts = [Counts::default(); 6];
    let _ = bench.counts(&mut counts);
    (counts, bench.totals().comparisons)
}

// What one pass counts, and what it saves.
fn show(rt: &HostRuntime, trace: &[Access]) -> anyhow::Result<()> {
    let candidates = candidates();
    let lines = candidates.map(|candidate| candidate.line);
    let (counts, comparisons) = one_pass(&lines, trace);
    println!(rt; "In one pass over the reads:")?;
    for (candidate, counts) in candidates.iter().zip(&counts) {
        let policy = candidate.policy;
        let ways = candidate.line.ways;
        let hits = counts.all_hits();
        let misses = counts.all_misses();
        println!(rt; "  {policy} with {ways} ways: {hits} hits, {misses} misses")?;
    }
    let alone = separate(&lines, trace);
    let saved = alone.saturating_sub(comparisons);
    println!(rt;
        "It made {comparisons} comparisons, and the separate caches make {alone}: {saved} are saved."
    )?;
    Ok(())
}

fn main(rt: HostRuntime) -> anyhow::Result<()> {
    show(&rt, &six_reads())
}
