// The three policies that come with the bench: FIFO (F), LRU (L) and tree PLRU (P).
use crate::fifo::Fifo;
use crate::lru::Lru;
use crate::plru::Plru;
use crate::three::Policies;

pub const STANDARD: Policies<Fifo, Lru, Plru> = Policies {
    first: Fifo,
    second: Lru,
    further: Plru,
};
