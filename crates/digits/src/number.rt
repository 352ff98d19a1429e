// Numbers that stand in a slice as bytes, the high one first; signed ones in two's complement.

ghost use Rattle.std.specs.Prelude.{◌≡◌, ℕ, List, [], ◌∷◌, drop};
ghost use Rattle.digits.specs.Numbers.{number_of, one_at, two_at, four_at};
ghost use Rattle.digits.specs.Signed.{signed_two_at, signed_four_at};

pub trait Number {
    ghost number_at: { List ℕ → ℕ → Self };

    // What the bytes from a place on stand for; past the end stand zeros.
    fn at(bytes: &[u8], place: usize) -> Self
        ensures { result ≡ number_at bytes.now place };
}

impl Number for u8 {
    ghost number_at = { one_at };

    fn at(bytes: &[u8], place: usize) -> u8 {
        byte_at(bytes, place)
    }
}

#[tactic(auto, using(crate::proofs::PlaceLaws::two_from))]
impl Number for u16 {
    ghost number_at = { two_at };

    fn at(bytes: &[u8], place: usize) -> u16 {
        let rest = from(bytes, place);
        two(byte_at(rest, 0), byte_at(rest, 1))
    }
}

#[tactic(auto, using(crate::proofs::PlaceLaws::four_from))]
impl Number for u32 {
    ghost number_at = { four_at };

    fn at(bytes: &[u8], place: usize) -> u32 {
        let rest = from(bytes, place);
        four(
            byte_at(rest, 0),
            byte_at(rest, 1),
            byte_at(rest, 2),
            byte_at(rest, 3),
        )
    }
}

#[tactic(auto, using(crate::proofs::PlaceLaws::signed_two))]
impl Number for i16 {
    ghost number_at = { signed_two_at };

    fn at(bytes: &[u8], place: usize) -> i16 {
        u16::at(bytes, place).cast_signed()
    }
}

#[tactic(auto, using(crate::proofs::PlaceLaws::signed_four))]
impl Number for i32 {
    ghost number_at = { signed_four_at };

    fn at(bytes: &[u8], place: usize) -> i32 {
        u32::at(bytes, place).cast_signed()
    }
}

// What stands from a place on.
#[tactic(auto, using(crate::proofs::PlaceLaws::drop_least))]
fn from(bytes: &[u8], place: usize) -> &[u8]
    ensures { result.now ≡ drop place bytes.now }
{
    &bytes[place.min(bytes.len())..]
}

// The byte at a place, 0 past the end.
fn byte_at(bytes: &[u8], place: usize) -> u8
    ensures { result ≡ one_at bytes.now place }
{
    bytes.get(place).copied().unwrap_or(0)
}

// Numbers of two, four and eight bytes, joined by shifts. std's `from_be_bytes` and `from_le_bytes`
// were tried: they take an array, which the compiler does not take apart, and multiply, and of the 293
// instructions that a line's digits and fields take they make 306 here and 311 where a word is loaded,
// where request Four asks that the food program be no slower.
pub fn two(high: u8, low: u8) -> u16
    ensures { result ≡ number_of (high ∷ low ∷ []) }
{
    (high as u16) << 8 | low as u16
}

pub fn four(a: u8, b: u8, c: u8, d: u8) -> u32
    ensures { result ≡ number_of (a ∷ b ∷ c ∷ d ∷ []) }
{
    (two(a, b) as u32) << 16 | two(c, d) as u32
}

pub fn eight(a: u8, b: u8, c: u8, d: u8, e: u8, f: u8, g: u8, h: u8) -> u64
    ensures { result ≡ number_of (a ∷ b ∷ c ∷ d ∷ e ∷ f ∷ g ∷ h ∷ []) }
{
    (four(a, b, c, d) as u64) << 32 | four(e, f, g, h) as u64
}
