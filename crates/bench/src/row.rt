// One row of a nesting policy in a sweep.
ghost use Rattle.std.specs.Prelude.{◌≡◌, ◌<◌, ◌≤◌, length, None, Some};
ghost use Rattle.policy.specs.Suite.{meaning, nest};
ghost use Rattle.bench.specs.Lead.{lead_seen, lead_value};
ghost use Rattle.bench.specs.Rows.{leave, step, step_alone, touch_leader};
ghost use Rattle.bench.specs.Words.{slot_of, words_of};

use crate::lead::Lead;
use policy::suite::Suite;
use policy::three::Member;

// Touches a row that leads, and tells narrower rows what it did.
#[inline(always)]
fn touch_leader<S: Suite>(
    policies: &S,
    member: Member,
    words: &mut [u32],
    tag: u32,
    lead: &mut Option<Lead>,
) -> (bool, usize)
    requires some { 1 < length words.old }
    requires most { length words.old ≤ 18 }
    ensures hit { result.0 ≡ (touch_leader (meaning S.suite member) (slot_of words.old) tag).hit }
    ensures comparisons { result.1 ≡ (touch_leader (meaning S.suite member) (slot_of words.old) tag).comparisons }
    ensures words { words.new ≡ words_of (touch_leader (meaning S.suite member) (slot_of words.old) tag).slot }
    ensures lead { lead_seen lead.new ≡ (touch_leader (meaning S.suite member) (slot_of words.old) tag).lead }
{
    let row = &mut words[1..];
    if lead.is_none() {
        *lead = Some(Lead::new());
    }
    let Some(leader) = lead else {
        unreachable!();
    };
    leader.before.clear();
    let Ok(()) = leader.before.try_extend_from_slice(row) else {
        unreachable!();
    };
    let answer = policies.touch(member, row, tag);
    leader.answer = answer;
    answer
}

// Truncates a follower from its leader's row as it was before, touches it, and lets it lead.
#[inline(always)]
fn leave_leader<S: Suite>(
    policies: &S,
    member: Member,
    words: &mut [u32],
    tag: u32,
    leader: &mut Lead,
)
    requires { 1 < length words.old }
    ensures words { words.new ≡ words_of (leave (meaning S.suite member) (nest S.suite member) (slot_of words.old) tag (lead_value leader.old)).slot }
    ensures lead { Some (lead_value leader.new) ≡ (leave (meaning S.suite member) (nest S.suite member) (slot_of words.old) tag (lead_value leader.old)).lead }
{
    words[0] = 0;
    let row = &mut words[1..];
    policies.truncate(member, &leader.before, row);
    let _ = policies.touch(member, row, tag);
    leader.answer = (false, 0);
    leader.before.clear();
}

// Sweeps one row of a nesting policy, after its wider ones: whether it hit, and the comparisons that are reported.
// Inlined where the member is known, so that each policy has code of its own.
#[inline(always)]
pub(crate) fn step_row<S: Suite>(
    policies: &S,
    member: Member,
    words: &mut [u32],
    tag: u32,
    lead: &mut Option<Lead>,
) -> (bool, usize)
    requires some { 1 < length words.old }
    requires most { length words.old ≤ 18 }
    ensures hit { result.0 ≡ (step (meaning S.suite member) (nest S.suite member) (slot_of words.old) tag (lead_seen lead.old)).hit }
    ensures comparisons { result.1 ≡ (step (meaning S.suite member) (nest S.suite member) (slot_of words.old) tag (lead_seen lead.old)).comparisons }
    ensures words { words.new ≡ words_of (step (meaning S.suite member) (nest S.suite member) (slot_of words.old) tag (lead_seen lead.old)).slot }
    ensures lead { lead_seen lead.new ≡ (step (meaning S.suite member) (nest S.suite member) (slot_of words.old) tag (lead_seen lead.old)).lead }
{
    if words[0] == 0 {
        return touch_leader(policies, member, words, tag, lead);
    }
    let Some(leader) = lead else {
        return (false, 0);
    };
    let (hit, place) = leader.answer;
    if !hit {
        return (false, 0);
    }
    if place <= words.len() - 2 {
        return (true, 0);
    }
    if !policies.keeps_nesting(member) {
        leave_leader(policies, member, words, tag, leader);
    }
    (false, 0)
}

// Touches a row of the further policy, which always leads.
pub(crate) fn touch_alone<S: Suite>(
    policies: &S,
    member: Member,
    words: &mut [u32],
    tag: u32,
) -> (bool, usize)
    requires { 1 < length words.old }
    ensures hit { result.0 ≡ (step_alone (meaning S.suite member) (slot_of words.old) tag None).hit }
    ensures comparisons { result.1 ≡ (step_alone (meaning S.suite member) (slot_of words.old) tag None).comparisons }
    ensures words { words.new ≡ words_of (step_alone (meaning S.suite member) (slot_of words.old) tag None).slot }
{
    policies.touch(member, &mut words[1..], tag)
}
