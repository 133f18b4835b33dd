// Replacement policies: what one row of a cache remembers, and which tag it gives up.
#![tactic(auto)]

pub mod fifo;
pub mod lru;
pub mod plru;
pub mod stack;
pub mod standard;
pub mod suite;
pub mod three;
pub mod traits;
