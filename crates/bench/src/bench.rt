// A bench: three policies, and what it holds.
use crate::held::Held;
use policy::suite::Suite;

// It counts hits and misses of every line of its table in one pass over the accesses.
#[derive(Drop)]
pub struct Bench<S: Suite> {
    pub(crate) policies: S,
    pub(crate) held: Held,
}
