// What an access does.
ghost use Rattle.std.specs.Prelude.{◌≡◌, ◌<◌};
ghost use Rattle.geometry.specs.Kind.{KindOf, kind_number};

use crate::refusal::Refusal;
use std::fmt;

// A fetch, a read or a store. Each has a fixed number.
#[derive(Clone, Copy, PartialEq, Eq, Debug)]
pub enum AccessKind {
    Fetch = 0,
    Read = 1,
    Store = 2,
}

impl AccessKind {
    // The place of the kind in a list of counts by kind.
    pub fn index(self) -> usize
        ensures number { result ≡ kind_number self }
        ensures low { result < 3 }
    {
        self as usize
    }
}

impl TryFrom<u8> for AccessKind {
    type Error = Refusal;

    ghost try_from_gives = { KindOf };

    fn try_from(number: u8) -> Result<Self, Refusal> {
        match number {
            0 => Ok(AccessKind::Fetch),
            1 => Ok(AccessKind::Read),
            2 => Ok(AccessKind::Store),
            _ => Err(Refusal::Kind),
        }
    }
}

impl fmt::Display for AccessKind {
    fn fmt<W: fmt::Write>(&self, f: &mut fmt::Formatter<W>) -> fmt::Result {
        f.write_str(match self {
            AccessKind::Fetch => "fetch",
            AccessKind::Read => "read",
            AccessKind::Store => "store",
        })
    }
}
