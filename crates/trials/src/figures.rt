// What the trials of a rule came to.
use crate::tally::{Tally, in_all};
use crate::trial::LENGTH;
use std::fmt;

#[derive(Clone, Copy, Default)]
pub struct Figures {
    runs: u64,
    accesses: u64,
    hits: u64,
    replaced: u64,
    pub differences: u32,
}

impl Figures {
    // Counts one run.
    pub fn add(&mut self, tally: &Tally, differences: u32) {
        self.runs = self.runs.saturating_add(1);
        self.accesses = self.accesses.saturating_add(u64::from(LENGTH));
        self.hits = self.hits.saturating_add(in_all(&tally.hits));
        self.replaced = self.replaced.saturating_add(tally.replaced);
        self.differences = self.differences.saturating_add(differences);
    }
}

impl fmt::Display for Figures {
    fn fmt<W: fmt::Write>(&self, f: &mut fmt::Formatter<W>) -> fmt::Result {
        let Figures {
            runs,
            accesses,
            hits,
            replaced,
            differences,
        } = self;
        write!(
            f,
            "{runs} runs, {accesses} accesses with {hits} hits and {replaced} replacements, {differences} differences"
        )
    }
}
