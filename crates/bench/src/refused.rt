// Why a call was refused.
ghost use Rattle.std.specs.Prelude.{◌≡◌, None};

use geometry::refusal::Refusal;

// The refusal, and the table line that it is about, from 1, if it is about one.
#[derive(Clone, Copy, PartialEq, Eq, Debug)]
pub struct Refused {
    pub refusal: Refusal,
    pub line: Option<usize>,
}

// A refusal that is about no table line.
impl From<Refusal> for Refused {
    ghost from_gives = { λ e r. r ≡ record { refusal = e; line = None } };

    fn from(refusal: Refusal) -> Refused {
        Refused {
            refusal,
            line: None,
        }
    }
}
