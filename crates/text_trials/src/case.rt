// A case of the input: L or J for a line or a job, the answer, and the text, parted by bars and ended by a line feed.
ghost use Rattle.std.specs.Prelude.{◌<◌, length, IfOk, IfSome};

use crate::escape::Unescaped;
use std::alloc::{AllocError, Global};

// What is read.
#[derive(Clone, Copy, PartialEq, Eq, Debug)]
pub enum Sort {
    Line,
    Job,
}

#[derive(Drop)]
pub struct Case<'a> {
    pub sort: Sort,
    pub answer: &'a [u8],
    pub text: Vec<u8>,
}

// The bytes before the first one that is `byte`, and those after it.
fn split_once(bytes: &[u8], byte: u8) -> Option<(&[u8], &[u8])>
    ensures { IfSome result (λ parts. length parts.1.now < length bytes.now) }
{
    let end = bytes.iter().position(|b| *b == byte)?;
    Some((&bytes[..end], &bytes[end + 1..]))
}

impl<'a> Case<'a> {
    // The next case and the input after it, or none where no whole case is left. The letter is the last byte before the
    // first bar; where none stands there, the case is of the sort of the one before.
    pub fn next(
        heap: Global,
        before: Sort,
        input: &'a [u8],
    ) -> Result<Option<(Case<'a>, &'a [u8])>, AllocError>
        ensures { IfOk result (λ next. IfSome next (λ parts. length parts.1.now < length input.now)) }
    {
        let Some((sort, rest)) = split_once(input, b'|') else {
            return Ok(None);
        };
        let Some((answer, rest)) = split_once(rest, b'|') else {
            return Ok(None);
        };
        let mut unescaped = Unescaped(rest);
        let text = unescaped.by_ref().collect(heap)?;
        let end = rest.len().saturating_sub(unescaped.0.len());
        let Some([b'\n', rest @ ..]) = rest.get(end..) else {
            return Ok(None);
        };
        let sort = match sort {
            [] => before,
            [.., b'J'] => Sort::Job,
            _ => Sort::Line,
        };
        Ok(Some((Case { sort, answer, text }, rest)))
    }
}
