// Where a line ends, and its fields, which are parted by commas.
ghost use Rattle.std.specs.Prelude.{◌≡◌, ◌<◌, length, map, if◌then◌else◌, IfOk, IfErr, IfSome, Some, None};
ghost use Rattle.jobtext.specs.Fields.{fields, has_feed, line_end};

use arrayvec::ArrayVec;
use geometry::refusal::Refusal;

// The longest line, with its line feed.
pub(crate) const LONGEST: usize = 80;

// Where the line feed of the first line stands.
pub(crate) fn line_end(text: &[u8]) -> Option<usize>
    ensures place { result ≡ (if has_feed text.now then Some (line_end text.now) else None) }
    ensures within { IfSome result (λ end. end < length text.now) }
{
    text.iter().take(LONGEST).position(|b| *b == b'\n')
}

// The fields, if a line may have as many.
pub(crate) fn fields(bytes: &[u8]) -> Result<ArrayVec<&[u8], 4>, Refusal>
    ensures found { IfOk result (λ v. map (λ f. f.now) v.items ≡ fields bytes.now) }
    ensures kind { IfErr result (λ e. e ≡ Refusal.Fields) }
    ensures count { IfErr result (λ _. 4 < length (fields bytes.now)) }
{
    let mut all: ArrayVec<&[u8], 4> = ArrayVec::new();
    all.extend(bytes.split(|b| *b == b','))
        .map_err(|_| Refusal::Fields)?;
    Ok(all)
}
