// The bytes that a text of the input stands for, up to the line feed that ends it: \n is a line feed, \x with two
// hexadecimal digits (0 to 9, a to f; any other byte counts 0) any byte, and \ with another byte that byte, a line feed
// too.
ghost use Rattle.std.specs.Prelude.{length};
ghost use Rattle.std.specs.Iterator.{at_most};

#[derive(Drop)]
pub struct Unescaped<'a>(pub &'a [u8]);

fn hex(digit: u8) -> u8 {
    match digit {
        b'0'..=b'9' => digit - b'0',
        b'a'..=b'f' => digit - b'a' + 10,
        _ => 0,
    }
}

impl Iterator for Unescaped<'_> {
    type Item = u8;

    ghost remaining = { λ s. at_most (length s.0.now) };

    fn next(&mut self) -> Option<u8> {
        let (byte, rest) = match self.0 {
            [b'\\', b'n', rest @ ..] => (b'\n', rest),
            [b'\\', b'x', high, low, rest @ ..] => (hex(*high) << 4 | hex(*low), rest),
            [b'\\', b'x', ..] | [b'\\'] => return None,
            [b'\\', byte, rest @ ..] => (*byte, rest),
            [b'\n', ..] | [] => return None,
            [byte, rest @ ..] => (*byte, rest),
        };
        self.0 = rest;
        Some(byte)
    }
}
