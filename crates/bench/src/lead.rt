// What the nearest wider leader did in a sweep of one set.
ghost use Rattle.std.specs.Prelude.{◌≡◌, false, []};
ghost use Rattle.bench.specs.Lead.{leads_seen};
ghost use Rattle.bench.specs.Mixed.{no_leads};

use arrayvec::ArrayVec;

// A head word and at most 16 ways.
pub(crate) const ROW_WORDS: usize = 17;

// What its touch answered, and its row before the touch.
#[derive(Drop)]
pub(crate) struct Lead {
    pub(crate) answer: (bool, usize),
    pub(crate) before: ArrayVec<u32, ROW_WORDS>,
}

// The nearest wider leaders of the two nesting policies, where there are such.
#[derive(Drop)]
pub(crate) struct Leads {
    pub(crate) first: Option<Lead>,
    pub(crate) second: Option<Lead>,
}

impl Lead {
    // A leader that has told nothing yet.
    pub(crate) fn new() -> Lead
        ensures answer { result.answer ≡ (false, 0) }
        ensures before { result.before.items ≡ [] }
    {
        Lead {
            answer: (false, 0),
            before: ArrayVec::new(),
        }
    }
}

impl Leads {
    // Before the widest rows nothing is told.
    pub(crate) fn none() -> Leads
        ensures { leads_seen result ≡ no_leads }
    {
        Leads {
            first: None,
            second: None,
        }
    }
}
