// The calls that take no workspace.
ghost use Rattle.std.specs.Prelude.{◌≡◌, None};
ghost use Rattle.bench.specs.Called.{CalledAlone, NewTracks};
ghost use Rattle.bench.specs.Calls.{frame, off, window, zero};
ghost use Rattle.bench.specs.Held.{bench_of, state_of};
ghost use Rattle.bench.specs.Spoken.{reply};
ghost use Rattle.bench.specs.State.{new_state};

use crate::bench::Bench;
use crate::held::{Held, Tally};
use crate::table::{MOST_LINES, Table};
use crate::window::Windows;
use geometry::refusal::Refusal;
use policy::suite::Suite;

impl<S: Suite> Bench<S> {
    // A bench without lines. Window 0 holds every address, and the others are off.
    pub fn new(policies: S) -> Bench<S>
        ensures state { state_of result.held ≡ new_state }
        ensures tracks { NewTracks S.suite (bench_of result.held) }
    {
        Bench {
            policies,
            held: Held {
                table: Table::empty(),
                misses: [[0; 3]; MOST_LINES],
                windows: Windows::new(),
                last: None,
                tally: Tally::new(0),
            },
        }
    }

    // Sets a window, which is then on: it holds the addresses from `first` to the one before `end`.
    pub fn window(&mut self, number: u64, first: u64, end: u64) -> Result<(), Refusal>
        ensures { CalledAlone S.suite (window number first end) (bench_of self.old.held) (bench_of self.new.held) (reply result) }
    {
        if number > 7 {
            return Err(Refusal::WindowNumber);
        }
        if first >= end {
            return Err(Refusal::WindowBounds);
        }
        if end > 1 << 32 {
            return Err(Refusal::WindowBounds);
        }
        self.held.windows.put(number as usize, first, end);
        Ok(())
    }

    // Puts a window off.
    pub fn off(&mut self, number: u64) -> Result<(), Refusal>
        ensures { CalledAlone S.suite (off number) (bench_of self.old.held) (bench_of self.new.held) (reply result) }
    {
        if number > 7 {
            return Err(Refusal::WindowNumber);
        }
        self.held.windows.off(number as usize);
        Ok(())
    }

    // Sets all counts to 0. Rows and frames stay, and the last access is still the last.
    pub fn zero(&mut self)
        ensures { CalledAlone S.suite zero (bench_of self.old.held) (bench_of self.new.held) None }
    {
        self.held.misses = [[0; 3]; MOST_LINES];
        self.held.tally = Tally::new(self.held.tally.frames);
    }

    // One frame more.
    pub fn frame(&mut self) -> Result<(), Refusal>
        ensures { CalledAlone S.suite frame (bench_of self.old.held) (bench_of self.new.held) (reply result) }
    {
        if self.held.tally.frames >= 1_000_000 {
            return Err(Refusal::Frames);
        }
        self.held.tally.frames += 1;
        Ok(())
    }
}
