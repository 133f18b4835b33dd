// Adds fields to a line that is being written, and puts a text into a buffer.
ghost use Rattle.std.specs.Prelude.{◌≡◌, ◌+◌, ◌≤◌, ◌∷◌, ◌++◌, decimal};
ghost use Rattle.arrayvec.specs.ArrayVec.{array_vec_len};
ghost use Rattle.geometry.specs.Refusal.{first_no};
ghost use Rattle.jobtext.specs.Written.{counted, fit_question, overwritten, seen_length};

use crate::bytes::LONGEST;
use arrayvec::ArrayVec;
use geometry::refusal::Refusal;
use itoa::Buffer;

// A line that is being written, byte by byte: of `write!` no contract tells that it succeeds.
pub(crate) type Text = ArrayVec<u8, LONGEST>;

// A comma, and a number in decimal without leading zeros.
pub(crate) fn push_field(text: &mut Text, n: u64)
    requires { array_vec_len text.old + 21 ≤ LONGEST }
    ensures line { text.new.items ≡ text.old.items ++ 44 ∷ decimal n }
    ensures count { array_vec_len text.new ≤ array_vec_len text.old + 21 }
{
    text.push(b',');
    text.try_extend_from_slice(Buffer::new().format(n).as_bytes())
        .unwrap();
}

// Puts a text at the front of a buffer, if it fits there, and tells its length.
pub(crate) fn put(text: &[u8], buffer: &mut [u8]) -> Result<usize, Refusal>
    ensures length { seen_length result ≡ counted (first_no (fit_question text.now buffer.old)) text.now }
    ensures bytes { buffer.new ≡ overwritten (first_no (fit_question text.now buffer.old)) text.now buffer.old }
{
    let count = text.len();
    if count > buffer.len() {
        return Err(Refusal::Buffer);
    }
    buffer[..count].copy_from_slice(text);
    Ok(count)
}
