// Traces whose counts are known.
ghost use Rattle.std.specs.Prelude.{◌≡◌};
ghost use Rattle.standalone.specs.Known.{KnownCounts, read, six_reads};

use crate::access::Access;
use geometry::kind::AccessKind;

// A read of an address.
fn read(address: u64) -> Access
    ensures { result ≡ read address }
{
    Access {
        kind: AccessKind::Read as u8,
        address,
    }
}

// Six reads on which FIFO of 2 and of 3 ways hit once each, at another access, and LRU of 3 ways hits twice.
pub fn six_reads() -> [Access; 6]
    ensures trace { result ≡ six_reads }
    ensures known { KnownCounts }
{
    [
        read(0x1d0),
        read(0x210),
        read(0x250),
        read(0x1d0),
        read(0x190),
        read(0x1d0),
    ]
}
