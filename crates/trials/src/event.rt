// An access of a trace: what it does, and where.
ghost use Rattle.std.specs.Prelude.{◌<◌};

// The simulator's own, so that it shares no code with the library that it is held against.
#[derive(Clone, Copy, PartialEq, Eq, Debug)]
pub enum Kind {
    Fetch,
    Read,
    Store,
}

impl Kind {
    // The place of the kind in a list of counts.
    pub fn index(self) -> u8
        ensures { result < 3 }
    {
        match self {
            Kind::Fetch => 0,
            Kind::Read => 1,
            Kind::Store => 2,
        }
    }
}

#[derive(Clone, Copy, PartialEq, Eq, Debug)]
pub struct Event {
    pub kind: Kind,
    pub address: u32,
}
