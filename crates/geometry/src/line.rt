// A table line, and the questions that it must pass.
ghost use Rattle.std.specs.Prelude.{◌≡◌, ◌^◌, ◌≤◌, true, false, IfOk, Some, None, MatchOption};
ghost use Rattle.geometry.specs.Line.{GeometryOf, line_questions, power_to};
ghost use Rattle.geometry.specs.Refusal.{Answers};

use crate::geometry::Geometry;
use crate::refusal::Refusal;
use policy::suite::Suite;

// A line of a table: block size in bytes, number of sets, policy letter, number of ways. Lines are ordered by these in turn.
// The numbers may be any; `check` tells whether they are allowed.
#[derive(Clone, Copy, PartialEq, Eq, PartialOrd, Ord, Default, Debug)]
pub struct Line {
    pub block: u64,
    pub sets: u64,
    pub letter: u8,
    pub ways: u64,
}

// The exponent of a power of two, at most `most`.
fn exponent_of(n: u64, most: u32) -> Option<u32>
    requires { most ≤ 14 }
    ensures { MatchOption result (power_to most n ≡ false) (λ k. (k ≤ most) × (n ≡ 2 ^ k) × (power_to most n ≡ true)) }
{
    let k = n.checked_ilog2()?;
    if k <= most && n == 1 << k {
        Some(k)
    } else {
        None
    }
}

impl Line {
    // The geometry of the line, or the first question that it does not pass.
    pub fn check<S: Suite>(&self, policies: &S) -> Result<Geometry, Refusal>
        ensures passes { Answers (line_questions S.suite.three self.now) result }
        ensures geometry { IfOk result (λ g. GeometryOf S.suite.three self.now g) }
    {
        let member = policies.find(self.letter).ok_or(Refusal::Letter)?;
        let set_bits = exponent_of(self.sets, 14).ok_or(Refusal::Sets)?;
        let block_bits = exponent_of(self.block, 10).ok_or(Refusal::Block)?;
        if !policies.takes(member, self.ways) {
            return Err(Refusal::Ways);
        }
        Ok(Geometry {
            member,
            set_bits,
            block_bits,
            ways: self.ways as usize,
        })
    }
}
