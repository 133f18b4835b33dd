// Numbers as a line has them: digits that the line lends.
ghost use Rattle.std.specs.Prelude.{◌≡◌, true, false, IfOk, IfErr};
ghost use Rattle.jobtext.specs.Numbers.{digit_value, digits_value, is_digit, is_numeral};
ghost use Rattle.std.specs.List.{list_all};

use geometry::refusal::Refusal;

// Digits of a base, at most `MOST` of them.
#[derive(Clone, Copy)]
pub struct Numeral<'a, const RADIX: u64, const MOST: usize> {
    pub digits: &'a [u8],
}

// A decimal number.
pub type Decimal<'a> = Numeral<'a, 10, 10>;

// A hexadecimal number.
pub type Hex<'a> = Numeral<'a, 16, 9>;

// Whether a byte is a digit of the base.
fn is_digit(byte: u8, radix: u64) -> bool
    ensures { result ≡ is_digit radix byte }
{
    match byte {
        b'0'..=b'9' => true,
        b'a'..=b'f' => radix == 16,
        _ => false,
    }
}

// Whether each byte is a digit of the base.
fn all_digits(bytes: &[u8], radix: u64) -> bool
    ensures { result ≡ list_all (is_digit radix) bytes.now }
{
    bytes.iter().all(|b| is_digit(*b, radix))
}

// What a digit counts. Bytes that are no digits count too, so `to_digit` does not serve.
fn weight_of(byte: u8) -> u64
    ensures { result ≡ digit_value byte }
{
    let zero = if byte <= b'9' { b'0' } else { b'a' - 10 };
    u64::from(byte.saturating_sub(zero))
}

// The number that the digits write.
fn value_of(digits: &[u8], radix: u64) -> u64
    ensures { result ≡ digits_value radix digits.now }
{
    digits.iter().fold(0, |value: u64, b| {
        value.wrapping_mul(radix).wrapping_add(weight_of(*b))
    })
}

impl<'a, const RADIX: u64, const MOST: usize> Numeral<'a, RADIX, MOST> {
    // The field as a number, if it has 1 to `MOST` digits and no leading zero.
    pub(crate) fn read(digits: &'a [u8]) -> Result<Self, Refusal>
        ensures same { IfOk result (λ n. n.digits.now ≡ digits.now) }
        ensures right { IfOk result (λ _. is_numeral RADIX MOST digits.now ≡ true) }
        ensures kind { IfErr result (λ e. e ≡ Refusal.Malformed) }
        ensures wrong { IfErr result (λ _. is_numeral RADIX MOST digits.now ≡ false) }
    {
        if digits.is_empty()
            || digits.len() > MOST
            || matches!(digits, [b'0', _, ..])
            || !all_digits(digits, RADIX)
        {
            return Err(Refusal::Malformed);
        }
        Ok(Numeral { digits })
    }

    // The number.
    pub fn value(&self) -> u64
        ensures { result ≡ digits_value RADIX self.now.digits.now }
    {
        value_of(self.digits, RADIX)
    }
}
