// Block, set and tag of an address.
ghost use Rattle.std.specs.Prelude.{◌≡◌};
ghost use Rattle.geometry.specs.Address.{block_in, block_of, set_of, sets_in, tag_of, words_in};

use crate::geometry::Geometry;

impl Geometry {
    // The number of sets.
    pub fn sets(&self) -> usize
        ensures { result ≡ sets_in self.now }
    {
        1 << self.set_bits
    }

    // The words that the rows of all sets take.
    pub fn words(&self) -> usize
        ensures { result ≡ words_in self.now }
    {
        self.sets() * (self.ways + 1)
    }

    // The block that an address lies in.
    pub fn block_of(&self, address: u32) -> u32
        ensures { result ≡ block_of address (block_in self.now) }
    {
        address >> self.block_bits
    }

    // The set of an address.
    pub fn set_of(&self, address: u32) -> usize
        ensures { result ≡ set_of address (block_in self.now) (sets_in self.now) }
    {
        let mask = (1u32 << self.set_bits) - 1;
        (self.block_of(address) & mask) as usize
    }

    // The tag of an address.
    pub fn tag_of(&self, address: u32) -> u32
        ensures { result ≡ tag_of address (block_in self.now) (sets_in self.now) }
    {
        self.block_of(address) >> self.set_bits
    }
}
