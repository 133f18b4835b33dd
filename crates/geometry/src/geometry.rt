// The geometry of a line that was found allowed.
ghost use Rattle.std.specs.Prelude.{◌≤◌};

use policy::three::Member;

// Sets and block size are powers of two, by their exponents.
#[derive(Clone, Copy)]
pub struct Geometry {
    pub member: Member,
    pub set_bits: u32,
    pub block_bits: u32,
    pub ways: usize,
    ghost sets_allowed: { set_bits ≤ 14 },
    ghost block_allowed: { block_bits ≤ 10 },
    ghost ways_allowed: { ways ≤ 16 },
}
