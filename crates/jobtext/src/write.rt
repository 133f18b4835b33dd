// Writes numbers and table lines into a lent buffer.
ghost use Rattle.std.specs.Prelude.{◌≡◌, IfOk, decimal};
ghost use Rattle.geometry.specs.Refusal.{first_no};
ghost use Rattle.jobtext.specs.Round.{ReadsAs, WrittenBack};
ghost use Rattle.jobtext.specs.Written.{counted, fit_question, line_text, overwritten, seen_length, write_questions};

use crate::compose::{Text, push_field, put};
use geometry::line::Line;
use geometry::refusal::Refusal;
use itoa::Buffer;
use policy::suite::Suite;

// Writes a number in decimal, without leading zeros, and tells its length.
pub fn write_number(n: u64, buffer: &mut [u8]) -> Result<usize, Refusal>
    ensures length { seen_length result ≡ counted (first_no (fit_question (decimal n) buffer.old)) (decimal n) }
    ensures bytes { buffer.new ≡ overwritten (first_no (fit_question (decimal n) buffer.old)) (decimal n) buffer.old }
{
    put(Buffer::new().format(n).as_bytes(), buffer)
}

// A table line as a job has it.
fn line_text(line: &Line) -> Text
    ensures { result.items ≡ line_text line.now }
{
    let mut text = Text::new();
    text.push(b'c');
    text.push(b',');
    text.push(line.letter);
    push_field(&mut text, line.sets);
    push_field(&mut text, line.block);
    push_field(&mut text, line.ways);
    text.push(b'\n');
    text
}

// Writes a table line that is allowed, with its line feed, and tells its length.
pub fn write_line<S: Suite>(line: &Line, policies: &S, buffer: &mut [u8]) -> Result<usize, Refusal>
    ensures length { seen_length result ≡ counted (first_no (write_questions S.suite.three line.now buffer.old)) (line_text line.now) }
    ensures bytes { buffer.new ≡ overwritten (first_no (write_questions S.suite.three line.now buffer.old)) (line_text line.now) buffer.old }
    ensures back { IfOk result (λ n. ReadsAs buffer.new n line.now) }
    ensures again { IfOk result (λ n. WrittenBack line.now buffer.new n) }
{
    line.check(policies)?;
    put(line_text(line).as_slice(), buffer)
}
