// One row of any of the three policies in a sweep.
ghost use Rattle.std.specs.Prelude.{◌≡◌, ◌<◌, ◌≤◌, length};
ghost use Rattle.bench.specs.Lead.{leads_seen};
ghost use Rattle.bench.specs.Mixed.{own_step, with_lead};
ghost use Rattle.bench.specs.Words.{slot_of, words_of};

use crate::lead::Leads;
use crate::row::{step_row, touch_alone};
use policy::suite::Suite;
use policy::three::Member;

// Sweeps one row after the wider ones of its policy: whether it hit, and the comparisons that are reported.
pub(crate) fn step_owned<S: Suite>(
    policies: &S,
    member: Member,
    words: &mut [u32],
    tag: u32,
    leads: &mut Leads,
) -> (bool, usize)
    requires { (1 < length words.old) × (length words.old ≤ 18) }
    ensures hit { result.0 ≡ (own_step S.suite (record { member = member; slot = slot_of words.old }) tag (leads_seen leads.old)).hit }
    ensures comparisons { result.1 ≡ (own_step S.suite (record { member = member; slot = slot_of words.old }) tag (leads_seen leads.old)).comparisons }
    ensures words { words.new ≡ words_of (own_step S.suite (record { member = member; slot = slot_of words.old }) tag (leads_seen leads.old)).slot }
    ensures leads { leads_seen leads.new ≡ with_lead (leads_seen leads.old) member (own_step S.suite (record { member = member; slot = slot_of words.old }) tag (leads_seen leads.old)).lead }
{
    match member {
        Member::First => step_row(policies, member, words, tag, &mut leads.first),
        Member::Second => step_row(policies, member, words, tag, &mut leads.second),
        Member::Further => touch_alone(policies, member, words, tag),
    }
}
