// The run of one cache: its questions, then every access in turn.
ghost use Rattle.std.specs.Prelude.{◌≡◌, ◌+◌, ◌*◌, ◌<◌, ◌≤◌, true, length, drop, Some, MatchResult};
ghost use Rattle.std.specs.List.{AllByRecursion};
ghost use Rattle.policy.specs.Three.{policy_of};
ghost use Rattle.geometry.specs.Address.{words_in};
ghost use Rattle.geometry.specs.Refusal.{Answers, first_no, refusal_number};
ghost use Rattle.standalone.specs.Allowed.{Allowed};
ghost use Rattle.standalone.specs.Run.{TracksIn};
ghost use Rattle.standalone.specs.Rows.{started_in};
ghost use Rattle.standalone.specs.Run.{Prepared, Ran, access_questions, run_questions};

use crate::access::{Access, CheckedAccess, Counts};
use crate::cache::Cache;
use geometry::line::Line;
use geometry::refusal::Refusal;
use policy::suite::Suite;

// Whether each access is allowed, or else the first question that one does not pass.
fn check_accesses(accesses: &[Access]) -> Result<(), Refusal>
    ensures { Answers (access_questions accesses.now) result }
{
    for access in accesses {
        CheckedAccess::try_from(*access)?;
    }
    Ok(())
}

impl<'a, S: Suite> Cache<'a, S> {
    // The cache of the line, once every question is passed.
    fn prepare(
        policies: &'a S,
        line: &Line,
        accesses: &[Access],
        words: usize,
    ) -> Result<Cache<'a, S>, Refusal>
        ensures { MatchResult result (λ c. Prepared S.suite.three line.now accesses.now words c.geometry) (λ e. first_no (run_questions S.suite.three line.now accesses.now words) ≡ Some (refusal_number e)) }
    {
        let geometry = line.check(policies)?;
        if words < geometry.words() {
            return Err(Refusal::Memory);
        }
        if accesses.len() > u32::MAX as usize {
            return Err(Refusal::Accesses);
        }
        check_accesses(accesses)?;
        Ok(Cache { policies, geometry })
    }

    // Touches every access in turn, in rows that are all started.
    fn touch_all(&self, accesses: &[Access], memory: &mut [u32]) -> (Counts, u64)
        requires room { words_in self.now.geometry ≤ length memory.old }
        requires takes { (policy_of S.suite.three self.now.geometry.member).takes self.now.geometry.ways ≡ true }
        requires allowed { AllByRecursion Allowed accesses.now }
        requires few { length accesses.now ≤ 4294967295 }
        requires started { memory.old ≡ started_in S.suite.three self.now.geometry memory.old }
        ensures { TracksIn S.suite.three self.now.geometry accesses.now (drop (words_in self.now.geometry) memory.old) memory.new result.0 result.1 }
    {
        let mut counts = Counts::default();
        let mut comparisons = 0;
        for access in accesses {
            let Ok(checked) = CheckedAccess::try_from(*access) else {
                unreachable!();
            };
            let (hit, compared) = self.touch(checked.address, memory);
            counts.add(checked.kind, hit);
            comparisons += compared as u64;
        }
        (counts, comparisons)
    }
}

// Runs the cache of a line over the accesses, in memory of its own.
// Answers misses and hits of each kind, and the comparisons.
pub fn run<S: Suite>(
    policies: &S,
    line: &Line,
    accesses: &[Access],
    memory: &mut [u32],
) -> Result<(Counts, u64), Refusal>
    ensures passes { Answers (run_questions S.suite.three line.now accesses.now (length memory.old)) result }
    ensures ran { MatchResult result (λ x. Ran S.suite.three line.now accesses.now memory.old memory.new x.0.misses x.0.hits x.1) (λ _. memory.new ≡ memory.old) }
{
    let cache = Cache::prepare(policies, line, accesses, memory.len())?;
    cache.start(memory);
    Ok(cache.touch_all(accesses, memory))
}
