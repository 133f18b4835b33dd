// The layer of a fault, and the line that tells it.
ghost use Rattle.std.specs.Prelude.{◌≡◌};
ghost use Rattle.geometry.specs.Refusal.{first_no, refusal_number};
ghost use Rattle.jobtext.specs.Seen.{blame_of};
ghost use Rattle.jobtext.specs.Written.{counted, fault_text, fit_question, layer_of, overwritten, seen_length};

use crate::compose::{Text, push_field, put};
use crate::fault::Fault;
use geometry::refusal::Refusal;

impl Fault {
    // The letter of the layer that refuses: T for the text, C for the caches, B for the bench. Each layer has a range of
    // numbers, which the names of the refusals would not say shorter.
    pub fn layer(&self) -> u8
        ensures { result ≡ layer_of (refusal_number self.now.refusal) }
    {
        match self.refusal.number() {
            0..=4 => b'T',
            5..=11 => b'C',
            _ => b'B',
        }
    }

    // The fault as a line.
    fn text(&self) -> Text
        ensures { result.items ≡ fault_text (blame_of self.now) }
    {
        let mut text = Text::new();
        text.push(b'q');
        push_field(&mut text, self.job_line);
        push_field(&mut text, u64::from(self.refusal.number()));
        text.push(b',');
        text.push(self.layer());
        push_field(&mut text, u64::from(self.table_line.unwrap_or(0)));
        text.push(b'\n');
        text
    }

    // Writes the fault with its line feed, and tells its length.
    pub fn write(&self, buffer: &mut [u8]) -> Result<usize, Refusal>
        ensures length { seen_length result ≡ counted (first_no (fit_question (fault_text (blame_of self.now)) buffer.old)) (fault_text (blame_of self.now)) }
        ensures bytes { buffer.new ≡ overwritten (first_no (fit_question (fault_text (blame_of self.now)) buffer.old)) (fault_text (blame_of self.now)) buffer.old }
    {
        put(self.text().as_slice(), buffer)
    }
}
