// Reads a job from standard input and tells what is in it, or the first fault.
#![tactic(auto)]

mod survey;
mod table;
#[cfg(test)]
mod tests;

use anyhow::anyhow;
use jobtext::fault::Fault;
use std::io::{Read, Write};
use survey::look_through;

// Prints the fault line; the program then fails.
fn tell_fault(rt: &HostRuntime, fault: &Fault) -> anyhow::Result<()> {
    let mut line = [0; 80];
    if let Ok(length) = fault.write(&mut line) {
        rt.stdout().write_all(&line[..length])?;
    }
    Err(anyhow!("the job is not well formed"))
}

fn lint(rt: &HostRuntime) -> anyhow::Result<()> {
    let mut text = Vec::new(rt.alloc());
    rt.stdin().read_to_end(&mut text)?;
    match look_through(text.as_slice()) {
        Ok(found) => println!(rt; "{found}")?,
        Err(fault) => tell_fault(rt, &fault)?,
    }
    Ok(())
}

fn main(rt: HostRuntime) -> anyhow::Result<()> {
    lint(&rt)
}
