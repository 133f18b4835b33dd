// The library's run of a trial, held to what the simulator says.
use crate::event::Event;
use crate::set::Set;
use crate::shape::Shape;
use crate::simulator::Simulator;
use crate::tally::Tally;
use crate::trial::Trial;
use crate::words::first_difference;
use policy::standard::STANDARD;
use standalone::access::Access;
use standalone::run::run;
use std::alloc::{AllocError, Global};
use std::fmt;

// What must come of a trial: the counts, and the words of all rows.
#[derive(Drop)]
pub struct Expected {
    pub tally: Tally,
    words: Vec<u32>,
}

impl Expected {
    // What the simulator makes of the events.
    pub fn of<S: Set>(
        heap: Global,
        shape: Shape,
        events: &[Event],
    ) -> Result<Expected, AllocError> {
        let mut simulator = Simulator::<S>::new(heap, shape)?;
        let tally = simulator.run(events)?;
        let words = simulator.words(heap)?;
        Ok(Expected { tally, words })
    }

    // The memory afterwards: the rows, and behind them what was there before.
    fn memory(&self, before: &[u32]) -> Result<Vec<u32>, AllocError> {
        let mut memory = self.words.clone()?;
        memory.extend(before.iter().skip(self.words.len()).copied())?;
        Ok(memory)
    }
}

// The answers of a trial that are not as expected.
#[derive(Drop)]
struct Differences<'a> {
    rt: &'a HostRuntime,
    trial: &'a Trial,
    count: u32,
}

impl Differences<'_> {
    // Counts and prints an answer, if it differs.
    fn compare<T: PartialEq + fmt::Debug>(
        &mut self,
        what: impl fmt::Display + Drop,
        expected: &T,
        got: &T,
    ) -> anyhow::Result<()> {
        if expected != got {
            let trial = self.trial;
            println!(self.rt; "{trial}: {what}: expected {expected:?}, got {got:?}")?;
            self.count = self.count.saturating_add(1);
        }
        Ok(())
    }

    // Counts and prints the first word that differs.
    fn compare_memory(&mut self, expected: &[u32], got: &[u32]) -> anyhow::Result<()> {
        match first_difference(expected, got) {
            Some(place) => self.compare(
                format_args!("word {place}"),
                &expected.get(place),
                &got.get(place),
            ),
            None => Ok(()),
        }
    }
}

// Runs the library in a memory that holds these words: how many answers differ.
pub fn compare(
    rt: &HostRuntime,
    trial: &Trial,
    accesses: &[Access],
    expected: &Expected,
    before: &[u32],
) -> anyhow::Result<u32> {
    let mut memory = before.to_vec(rt.alloc())?;
    match run(&STANDARD, &trial.line(), accesses, &mut memory) {
        Ok((counts, comparisons)) => {
            let tally = expected.tally;
            let mut differences = Differences {
                rt,
                trial,
                count: 0,
            };
            differences.compare("misses", &tally.misses, &counts.misses)?;
            differences.compare("hits", &tally.hits, &counts.hits)?;
            differences.compare("comparisons", &tally.comparisons, &comparisons)?;
            differences.compare_memory(&expected.memory(before)?, &memory)?;
            Ok(differences.count)
        }
        Err(refusal) => {
            let number = refusal.number();
            println!(rt; "{trial}: expected to run, got refusal {number}")?;
            Ok(1)
        }
    }
}
