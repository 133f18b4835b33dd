// Reads a line of a job.
ghost use Rattle.std.specs.Prelude.{◌≡◌, ◌<◌, ◌≤◌, true, false, [], ◌∷◌, length, IfErr, IfOk};
ghost use Rattle.std.specs.List.{list_all};
ghost use Rattle.jobtext.specs.Fields.{fields};
ghost use Rattle.jobtext.specs.Forms.{access_form, by_form, by_known, form_of, is_letter, off_form, printable, read_comment, read_record, read_text, table_form, window_form};
ghost use Rattle.jobtext.specs.Round.{OneText};
ghost use Rattle.jobtext.specs.Seen.{seen, seen_line};

use crate::bytes::{fields, line_end};
use crate::numeral::{Decimal, Hex};
use crate::record::{Record, TextLine};
use geometry::kind::AccessKind;
use geometry::refusal::Refusal;

// A field that is the letter of a policy.
fn read_letter(field: &[u8]) -> Result<u8, Refusal>
    ensures one { IfOk result (λ letter. field.now ≡ letter ∷ []) }
    ensures right { IfOk result (λ _. is_letter field.now ≡ true) }
    ensures kind { IfErr result (λ e. e ≡ Refusal.Malformed) }
    ensures wrong { IfErr result (λ _. is_letter field.now ≡ false) }
{
    match field {
        [letter @ b'A'..=b'Z'] => Ok(*letter),
        _ => Err(Refusal::Malformed),
    }
}

// A table line after its `c` and the comma.
fn read_table<'a>(rest: &'a [u8]) -> Result<Record<'a>, Refusal>
    ensures { seen result ≡ by_form table_form (fields rest.now) }
{
    match fields(rest)?.as_slice() {
        [letter, sets, block, ways] => Ok(Record::Table {
            letter: read_letter(*letter)?,
            sets: Decimal::read(*sets)?,
            block: Decimal::read(*block)?,
            ways: Decimal::read(*ways)?,
        }),
        _ => Err(Refusal::Fields),
    }
}

// An access after its kind and the comma.
fn read_access<'a>(kind: AccessKind, rest: &'a [u8]) -> Result<Record<'a>, Refusal>
    ensures { seen result ≡ by_form (access_form kind) (fields rest.now) }
{
    match fields(rest)?.as_slice() {
        [address] => Ok(Record::Access {
            kind,
            address: Hex::read(*address)?,
        }),
        _ => Err(Refusal::Fields),
    }
}

// A window after its `w` and the comma.
fn read_window<'a>(rest: &'a [u8]) -> Result<Record<'a>, Refusal>
    ensures { seen result ≡ by_form window_form (fields rest.now) }
{
    match fields(rest)?.as_slice() {
        [number, first, end] => Ok(Record::Window {
            number: Decimal::read(*number)?,
            first: Hex::read(*first)?,
            end: Hex::read(*end)?,
        }),
        _ => Err(Refusal::Fields),
    }
}

// The number of a window that goes off.
fn read_off<'a>(rest: &'a [u8]) -> Result<Record<'a>, Refusal>
    ensures { seen result ≡ by_form off_form (fields rest.now) }
{
    match fields(rest)?.as_slice() {
        [number] => Ok(Record::Off {
            number: Decimal::read(*number)?,
        }),
        _ => Err(Refusal::Fields),
    }
}

// Whether each byte may stand in a comment.
fn all_printable(text: &[u8]) -> bool
    ensures { result ≡ list_all printable text.now }
{
    text.iter().all(|b| matches!(b, b' '..=b'~'))
}

// A comment after its sign.
fn read_comment<'a>(text: &'a [u8]) -> Result<Record<'a>, Refusal>
    ensures { seen result ≡ read_comment text.now }
{
    if all_printable(text) {
        Ok(Record::Comment(text))
    } else {
        Err(Refusal::Malformed)
    }
}

// A line of several fields: the first one, and what follows its comma.
fn read_fields<'a>(first: char, rest: &'a [u8]) -> Result<Record<'a>, Refusal>
    ensures { seen result ≡ by_known (form_of first) (fields rest.now) }
{
    match first {
        'c' => read_table(rest),
        'i' => read_access(AccessKind::Fetch, rest),
        'r' => read_access(AccessKind::Read, rest),
        's' => read_access(AccessKind::Store, rest),
        'w' => read_window(rest),
        'o' => read_off(rest),
        _ => Err(Refusal::Fields),
    }
}

// A line of one field.
fn read_alone(first: char) -> Result<Record<'static>, Refusal>
    ensures { seen result ≡ by_known (form_of first) [] }
{
    match first {
        'g' => Ok(Record::Open),
        'f' => Ok(Record::Frame),
        'e' => Ok(Record::Flush),
        'z' => Ok(Record::Zero),
        _ => Err(Refusal::Fields),
    }
}

// A line without its line feed.
fn read_record<'a>(line: &'a [u8]) -> Result<Record<'a>, Refusal>
    ensures { seen result ≡ read_record line.now }
{
    match line {
        [b'#', text @ ..] => read_comment(text),
        [first, b',', rest @ ..] => read_fields(*first as char, rest),
        [only] => read_alone(*only as char),
        _ => Err(Refusal::Fields),
    }
}

// The first line of a text: its record and its length, or the first question that it does not pass.
pub fn read_line<'a>(text: &'a [u8]) -> Result<TextLine<'a>, Refusal>
    ensures line { seen_line result ≡ read_text text.now }
    ensures some { IfOk result (λ l. 0 < l.length) }
    ensures within { IfOk result (λ l. l.length ≤ length text.now) }
    ensures apart { IfOk result (λ l. OneText text.now l.length) }
{
    let end = line_end(text).ok_or(Refusal::LineFeed)?;
    let record = read_record(&text[..end])?;
    Ok(TextLine {
        record,
        length: end + 1,
    })
}
