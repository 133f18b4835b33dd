// Words of memory: what stands in a used one, and where two differ.
use crate::generator::Generator;
use std::alloc::{AllocError, Global};
use std::iter;

// So many words of a memory that was used for something else.
pub fn used_words(heap: Global, length: usize, seed: u64) -> Result<Vec<u32>, AllocError> {
    let mut generator = Generator::new(seed);
    iter::repeat_with(|| generator.next())
        .take(length)
        .collect(heap)
}

// The first place where two memories differ; past the end of the shorter, if only one goes on.
pub fn first_difference(left: &[u32], right: &[u32]) -> Option<usize> {
    let same = left.iter().zip(right).take_while(|(x, y)| x == y).count();
    (same < left.len().max(right.len())).then_some(same)
}
