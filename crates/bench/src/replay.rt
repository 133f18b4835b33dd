// A list of calls, one after the other.
ghost use Rattle.std.specs.Prelude.{◌≡◌, ◌++◌, map, length, min, drop};
ghost use Rattle.std.specs.List.{AllWithin};
ghost use Rattle.bench.specs.Called.{Called};
ghost use Rattle.bench.specs.Held.{bench_of};
ghost use Rattle.bench.specs.Refused.{LinesFromOne};
ghost use Rattle.bench.specs.Spoken.{answer_of, do_of, spoken};
ghost use Rattle.bench.specs.State.{bench_answers, bench_run, new_bench};
ghost use Rattle.bench.specs.Theorem.{OnePass};

use crate::bench::Bench;
use crate::call::Call;
use crate::refused::Refused;
use policy::suite::Suite;

impl<S: Suite> Bench<S> {
    // Makes one call.
    pub fn call(&mut self, call: &Call, workspace: &mut [u32]) -> Result<(), Refused>
        ensures called { Called S.suite (do_of call.now) (bench_of self.old.held workspace.old) (bench_of self.new.held workspace.new) (answer_of result) }
        ensures from_one { LinesFromOne result }
    {
        match call {
            Call::Flush => self.flush(workspace)?,
            Call::Zero => self.zero(),
            Call::Frame => self.frame()?,
            Call::Open(lines) => self.open(lines, workspace)?,
            Call::Access(access) => self.access(access, workspace)?,
            Call::Window { number, first, end } => self.window(*number, *first, *end)?,
            Call::Off(number) => self.off(*number)?,
        }
        Ok(())
    }
}

// Gives a new bench a list of calls with one workspace, refused or not, and writes what each answered. Where the list of
// answers is shorter than that of the calls, the calls beyond it are not made.
pub fn replay<S: Suite>(
    policies: S,
    calls: &[Call],
    workspace: &mut [u32],
    answers: &mut [Result<(), Refused>],
) -> Bench<S>
    ensures answers { map answer_of answers.new ≡ bench_answers S.suite (spoken (length answers.old) calls.now) (new_bench workspace.old) ++ map answer_of (drop (length calls.now) answers.old) }
    ensures beyond { drop (length calls.now) answers.new ≡ drop (length calls.now) answers.old }
    ensures from_one { AllWithin LinesFromOne answers.new 0 (min (length calls.now) (length answers.old)) }
    ensures bench { bench_of result.held workspace.new ≡ bench_run S.suite (spoken (length answers.old) calls.now) (new_bench workspace.old) }
    ensures theorem { OnePass S.suite (spoken (length answers.old) calls.now) workspace.old }
{
    let mut bench = Bench::new(policies);
    let count = calls.len().min(answers.len());
    // By index: after `iter_mut` in a chain a proof would know only the length of the answers.
    for k in 0..count {
        answers[k] = bench.call(&calls[k], workspace);
    }
    bench
}
