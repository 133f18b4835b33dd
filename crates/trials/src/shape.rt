// The shape of a cache: how many sets, how many bytes in a block, how many ways.
ghost use Rattle.std.specs.Prelude.{◌<◌};

#[derive(Clone, Copy)]
pub struct Shape {
    pub sets: u32,
    pub block: u32,
    pub ways: u32,
    ghost some_sets: { 0 < sets },
    ghost some_block: { 0 < block },
}

impl Shape {
    pub fn new(sets: u32, block: u32, ways: u32) -> Option<Shape> {
        if sets == 0 || block == 0 {
            return None;
        }
        Some(Shape { sets, block, ways })
    }

    // The words of the rows of all sets: each has a head word and one for each way.
    pub fn words(&self) -> usize {
        let row = (self.ways as usize).saturating_add(1);
        (self.sets as usize).saturating_mul(row)
    }
}
