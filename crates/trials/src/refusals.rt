// Calls the library at the borders of what it refuses.
use crate::cases::{
    Case, access_cases, block_cases, letter_cases, order_cases, set_cases, ways_cases,
};
use crate::tally::in_all;
use crate::words::used_words;
use policy::standard::STANDARD;
use standalone::access::Counts;
use standalone::run::run;

#[derive(Clone, Copy, Default)]
pub struct Borders {
    pub cases: u32,
    pub wrong: u32,
}

// Whether a run counted each of so many accesses once, and compared nothing where there are none.
fn counts_all(counts: &Counts, comparisons: u64, accesses: usize) -> bool {
    let counted = in_all(&counts.misses).saturating_add(in_all(&counts.hits));
    counted == accesses as u64 && (accesses > 0 || comparisons == 0)
}

// Whether the call answers as the case says; one that is refused leaves the memory as it was.
fn try_case(rt: &HostRuntime, case: &Case) -> anyhow::Result<bool> {
    let before = used_words(rt.alloc(), case.words, 7)?;
    let mut memory = before.clone()?;
    let answer = run(&STANDARD, &case.line, case.accesses, &mut memory);
    let got = answer.as_ref().err().map(|refusal| refusal.number());
    let sound = match answer {
        Ok((counts, comparisons)) => counts_all(&counts, comparisons, case.accesses.len()),
        Err(_) => memory == before,
    };
    if got == case.number && sound {
        return Ok(true);
    }
    println!(rt; "{case}, got {got:?}, sound: {sound}")?;
    Ok(false)
}

impl Borders {
    fn add(&mut self, rt: &HostRuntime, cases: &[Case]) -> anyhow::Result<()> {
        for case in cases {
            self.cases = self.cases.saturating_add(1);
            if !try_case(rt, case)? {
                self.wrong = self.wrong.saturating_add(1);
            }
        }
        Ok(())
    }
}

// Makes all calls.
pub fn try_borders(rt: &HostRuntime) -> anyhow::Result<Borders> {
    let mut borders = Borders::default();
    borders.add(rt, &letter_cases())?;
    borders.add(rt, &set_cases())?;
    borders.add(rt, &block_cases())?;
    borders.add(rt, &ways_cases())?;
    borders.add(rt, &access_cases())?;
    borders.add(rt, &order_cases())?;
    Ok(borders)
}
