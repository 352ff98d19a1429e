// One digit, and the two digits of a byte.

ghost use Rattle.std.specs.Prelude.{◌≡◌, true, ◌<◌};
ghost use Rattle.digits.specs.Digits.{is_digit, digit_value, byte_of, byte_in, digit_of, high_digit, low_digit};

#[tactic(auto, unfolding(crate::specs::Digits::is_digit))]
fn is_digit(c: u8) -> bool
    ensures { result ≡ is_digit c }
{
    matches!(c, b'0'..=b'9' | b'a'..=b'f')
}

// What a digit stands for.
#[tactic(auto, unfolding(crate::specs::Digits::is_digit, crate::specs::Digits::digit_value))]
fn value_of(c: u8) -> u8
    requires { is_digit c ≡ true }
    ensures { result ≡ digit_value c }
{
    if c <= b'9' { c - b'0' } else { c - b'a' + 10 }
}

// The byte that two digits write.
#[tactic(auto, using(crate::proofs::DigitLaws::value_lt))]
fn byte_of(high: u8, low: u8) -> u8
    requires { (is_digit high ≡ true) × (is_digit low ≡ true) }
    ensures { result ≡ byte_of (digit_value high) (digit_value low) }
{
    16 * value_of(high) + value_of(low)
}

// The byte that two characters write, if they are digits.
#[tactic(auto, unfolding(crate::specs::Digits::byte_in))]
pub fn byte_in(high: u8, low: u8) -> Option<u8>
    ensures { result ≡ byte_in high low }
{
    (is_digit(high) & is_digit(low)).then(|| byte_of(high, low))
}

#[tactic(auto, unfolding(crate::specs::Digits::digit_of))]
fn digit_of(n: u8) -> u8
    requires { n < 16 }
    ensures { result ≡ digit_of n }
{
    if n < 10 { b'0' + n } else { b'a' + (n - 10) }
}

// The digits of a byte: by name, as the document has them.
pub fn high_digit(b: u8) -> u8
    ensures { result ≡ high_digit b }
{
    digit_of(b >> 4)
}

pub fn low_digit(b: u8) -> u8
    ensures { result ≡ low_digit b }
{
    digit_of(b & 15)
}
