// A cache of one geometry, whose rows lie by rising set in a memory that each call is lent.
ghost use Rattle.std.specs.Prelude.{◌≡◌, ◌≤◌, length};
ghost use Rattle.geometry.specs.Address.{words_in};
ghost use Rattle.standalone.specs.Rows.{started_in, touch_in, touched_in};

use geometry::geometry::Geometry;
use policy::suite::Suite;

// The policies, and the geometry, which tells whose rows these are.
#[derive(Clone, Copy)]
pub(crate) struct Cache<'a, S: Suite> {
    pub(crate) policies: &'a S,
    pub(crate) geometry: Geometry,
}

impl<S: Suite> Cache<'_, S> {
    // Starts the row of every set.
    pub(crate) fn start(&self, memory: &mut [u32])
        requires { words_in self.now.geometry ≤ length memory.old }
        ensures { memory.new ≡ started_in S.suite.three self.now.geometry memory.old }
    {
        let geometry = &self.geometry;
        let width = geometry.ways + 1;
        let sets = geometry.sets();
        // By index: after `chunks_exact_mut` a proof would know only the length of the memory.
        for set in 0..sets {
            let from = set * width;
            let to = from + width;
            self.policies.start(geometry.member, &mut memory[from..to]);
        }
    }

    // Touches the tag of an address in the row of its set: whether it hit, and the comparisons.
    pub(crate) fn touch(&self, address: u32, memory: &mut [u32]) -> (bool, usize)
        requires { words_in self.now.geometry ≤ length memory.old }
        ensures hit { result.0 ≡ (touch_in S.suite.three self.now.geometry address memory.old).hit }
        ensures comparisons { result.1 ≡ (touch_in S.suite.three self.now.geometry address memory.old).comparisons }
        ensures row { memory.new ≡ touched_in S.suite.three self.now.geometry address memory.old }
    {
        let geometry = &self.geometry;
        let width = geometry.ways + 1;
        let from = geometry.set_of(address) * width;
        let to = from + width;
        let tag = geometry.tag_of(address);
        self.policies
            .touch(geometry.member, &mut memory[from..to], tag)
    }
}
