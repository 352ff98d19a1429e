// The bit pattern of a float, and which patterns are accepted as percents.

ghost use Rattle.std.specs.Prelude.{◌≡◌};
ghost use Rattle.std.specs.Float.{binary32};
ghost use Rattle.std.specs.Float.Ieee.{to_bits, of_bits};
ghost use Rattle.percent.specs.Percent.{accepted};

// The bit pattern of 100.0, the highest that is accepted: a percent's patterns are in the order of
// their values, and those with a sign, the infinities and the NaNs come after it.
const HUNDRED: u32 = 0x42c8_0000;

// A NaN's bit pattern: std's `to_bits` asks for no NaN. Which one does not matter, since none is accepted.
const NAN: u32 = 0x7fc0_0000;

// The bit pattern of a float.
#[tactic(auto, using(crate::proofs::PercentLaws::nan_pattern))]
pub fn bits_of(x: f32) -> u32
    ensures { result ≡ to_bits binary32 x }
{
    if x.is_nan() { NAN } else { x.to_bits() }
}

// Whether a pattern is that of a percent with its sign bit clear and at most 100.0.
#[tactic(auto, using(crate::proofs::PercentLaws::accepted_pattern))]
pub fn is_accepted(bits: u32) -> bool
    ensures { result ≡ accepted (of_bits binary32 bits) }
{
    bits <= HUNDRED
}
