// Reads lines and jobs, good and bad, and compares each answer with what it must be.
#![tactic(auto)]

mod answer;
mod case;
mod escape;
mod shown;

use answer::Answer;
use anyhow::ensure;
use case::{Case, Sort};
use std::io::{Read, Write};

#[derive(Clone, Copy, Default)]
struct Tally {
    lines: u64,
    jobs: u64,
    wrong: u64,
}

// Counts the case, and prints it where the answer is wrong.
fn judge(rt: &HostRuntime, case: &Case, tally: &mut Tally) -> anyhow::Result<()> {
    match case.sort {
        Sort::Line => tally.lines = tally.lines.saturating_add(1),
        Sort::Job => tally.jobs = tally.jobs.saturating_add(1),
    }
    let answer = Answer::to(case).to_string(rt.alloc())?;
    if answer.as_bytes() != case.answer {
        tally.wrong = tally.wrong.saturating_add(1);
        rt.stdout().write_all(b"expected: ")?;
        rt.stdout().write_all(case.answer)?;
        println!(rt; "\ngot: {answer}")?;
    }
    Ok(())
}

fn judge_all(rt: &HostRuntime) -> anyhow::Result<Tally> {
    let mut input = Vec::new(rt.alloc());
    rt.stdin().read_to_end(&mut input)?;
    let mut tally = Tally::default();
    let mut rest = input.as_slice();
    let mut sort = Sort::Line;
    while let Some((case, later)) = Case::next(rt.alloc(), sort, rest)? {
        judge(rt, &case, &mut tally)?;
        sort = case.sort;
        rest = later;
    }
    Ok(tally)
}

fn try_all(rt: &HostRuntime) -> anyhow::Result<()> {
    println!(rt; "Each line and each job is read, and the answer compared with what it must be.")?;
    let Tally { lines, jobs, wrong } = judge_all(rt)?;
    println!(rt; "lines: {lines} cases")?;
    println!(rt; "jobs: {jobs} cases")?;
    println!(rt; "wrong answers: {wrong}")?;
    ensure!(wrong == 0, "an answer is wrong");
    Ok(())
}

fn main(rt: HostRuntime) -> anyhow::Result<()> {
    try_all(&rt)
}
