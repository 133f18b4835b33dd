// What a bench tells of its counts.
ghost use Rattle.std.specs.Prelude.{◌≡◌, ◌≤◌, ◌++◌, map, length, drop, MatchResult, OnOk};
ghost use Rattle.bench.specs.Counted.{CountsTracked, TotalsTracked, counts_refusal, record_of, records_of};
ghost use Rattle.bench.specs.Spoken.{reply};
ghost use Rattle.bench.specs.Held.{bench_of, state_of};

use crate::bench::Bench;
use crate::miss::Misses;
use geometry::refusal::Refusal;
use policy::suite::Suite;
use standalone::access::Counts;

// All accesses, the uncached ones, frames, and the comparisons that the sweep made.
#[derive(Clone, Copy, PartialEq, Eq, Debug)]
pub struct Totals {
    pub accesses: u32,
    pub uncached: u32,
    pub frames: u32,
    pub comparisons: u64,
}

// The record of a line: its misses, and the cached accesses that it did not miss.
fn record_of(cached: &Misses, misses: &Misses) -> Counts
    ensures { result ≡ record_of cached.now misses.now }
{
    Counts {
        misses: *misses,
        hits: [
            cached[0].saturating_sub(misses[0]),
            cached[1].saturating_sub(misses[1]),
            cached[2].saturating_sub(misses[2]),
        ],
    }
}

// Fills a record for each line.
fn fill(cached: &Misses, misses: &[Misses], records: &mut [Counts])
    requires { length misses.now ≤ length records.old }
    ensures { records.new ≡ map (record_of cached.now) misses.now ++ drop (length misses.now) records.old }
{
    // By index: after `iter_mut` in a chain a proof would know only the length of the list.
    for k in 0..misses.len() {
        let line = misses[k];
        records[k] = record_of(cached, &line);
    }
}

impl<S: Suite> Bench<S> {
    // The totals.
    pub fn totals(&self) -> Totals
        ensures accesses { result.accesses ≡ (state_of self.now.held).accesses }
        ensures uncached { result.uncached ≡ (state_of self.now.held).uncached }
        ensures frames { result.frames ≡ (state_of self.now.held).frames }
        ensures comparisons { result.comparisons ≡ (state_of self.now.held).comparisons }
        ensures tracks { TotalsTracked S.suite (bench_of self.now.held) result.accesses result.uncached result.frames result.comparisons }
    {
        let tally = &self.held.tally;
        Totals {
            accesses: tally.accesses,
            uncached: tally.uncached,
            frames: tally.frames,
            comparisons: tally.comparisons,
        }
    }

    // Fills the list with a record for each line: its hits and misses of each kind. Records beyond stay.
    pub fn counts(&self, records: &mut [Counts]) -> Result<(), Refusal>
        ensures passes { reply result ≡ counts_refusal (state_of self.now.held) (length records.old) }
        ensures records { MatchResult result (λ _. records.new ≡ records_of (state_of self.now.held) ++ drop (length (records_of (state_of self.now.held))) records.old) (λ _. records.new ≡ records.old) }
        ensures tracks { OnOk result (CountsTracked S.suite (bench_of self.now.held) records.new) }
    {
        let count = self.held.table.lines.len();
        if records.len() < count {
            return Err(Refusal::Records);
        }
        fill(&self.held.tally.cached, &self.held.misses[..count], records);
        Ok(())
    }
}
