// A percent in hundredths, to the nearest, halves up.

ghost use Rattle.std.specs.Prelude.{◌≡◌, true, ◌+◌, ◌%◌};
ghost use Rattle.std.specs.Float.{binary32};
ghost use Rattle.std.specs.Float.Ieee.{of_bits};
ghost use Rattle.percent.specs.Percent.{accepted, hundredths_of, rounded_of};

use crate::pattern::{bits_of, is_accepted};

// The significand of a pattern whose exponent's field is not 0: a leading one, and the lowest 23
// bits.
fn significand(bits: u32) -> u32
    ensures { result ≡ 8388608 + bits % 8388608 }
{
    bits & 0x7f_ffff | 0x80_0000
}

// The hundredths of an accepted pattern. The value is the significand halved `down` times. From 32
// halvings on nothing is left of a hundred times it.
#[tactic(auto, using(crate::proofs::PercentLaws::percent_bits))]
fn hundredths(bits: u32) -> u16
    requires { accepted (of_bits binary32 bits) ≡ true }
    ensures { result ≡ hundredths_of (of_bits binary32 bits) }
{
    let exponent = bits >> 23;
    if exponent < 119 {
        return 0;
    }
    let down = 150 - exponent;
    let half = 1 << (down - 1);
    ((100 * significand(bits) + half) >> down) as u16
}

// The hundredths of a float, if it is accepted as a percent. Another float has none.
pub fn hundredths_of(x: f32) -> Option<u16>
    ensures { result ≡ rounded_of x }
{
    let bits = bits_of(x);
    is_accepted(bits).then(|| hundredths(bits))
}
