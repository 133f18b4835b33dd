// Where an access falls at a level.
ghost use Rattle.std.specs.Prelude.{◌≡◌, ◌<◌};
ghost use Rattle.geometry.specs.Address.{block_in, set_of, sets_in, tag_of};

use geometry::geometry::Geometry;
use geometry::kind::AccessKind;
use standalone::access::CheckedAccess;

// One of how many sets, the tag that is looked for there, and the kind of the access.
#[derive(Clone, Copy)]
pub(crate) struct Place {
    pub(crate) sets: usize,
    pub(crate) set: usize,
    pub(crate) tag: u32,
    pub(crate) kind: AccessKind,
    ghost within: { set < sets },
}

impl Place {
    // The place of an access at a level of this geometry.
    pub(crate) fn of(geometry: &Geometry, access: CheckedAccess) -> Place
        ensures sets { result.sets ≡ sets_in geometry.now }
        ensures set { result.set ≡ set_of access.address (block_in geometry.now) (sets_in geometry.now) }
        ensures tag { result.tag ≡ tag_of access.address (block_in geometry.now) (sets_in geometry.now) }
        ensures kind { result.kind ≡ access.kind }
    {
        Place {
            sets: geometry.sets(),
            set: geometry.set_of(access.address),
            tag: geometry.tag_of(access.address),
            kind: access.kind,
        }
    }
}
