// From a distance to the standardized difference, of every category. Document 01, "Standardizing value and difference".
ghost use Rattle.std.specs.Prelude.{◌≡◌, ◌<◌, ◌≤◌};
ghost use Rattle.difference.specs.Difference.{distance, scaled_of, difference_of};

use crate::difference::Difference;
use crate::nearest::nearest;

// The largest size of a difference, in tenths.
const CAP: u64 = 999;

// The difference of a distance `h`: `scale` times its size over the standardizing value `s`, to the nearest
// whole, capped, with its sign.
#[tactic(auto, using(crate::proofs::DistanceLaws::scales))]
pub fn scaled(scale: u32, h: i32, s: u32) -> Difference
    requires { (scale ≤ 1_000_000) × (0 < s) }
    ensures { result ≡ scaled_of scale h s }
{
    let nearest = nearest(scale as u64 * h.unsigned_abs() as u64, s as u64);
    let size = nearest.min(CAP) as i32;
    Difference {
        tenths: if h < 0 { -size } else { size },
    }
}

// Ten-millionths, in which the value is, times ten for tenths, to a hundredth.
const SCALE: u32 = 1_000_000;

pub fn standardized(reading: u16, mean: u16, s: u32) -> Difference
    requires { 0 < s }
    ensures { result ≡ difference_of (distance reading mean) s }
{
    scaled(SCALE, reading as i32 - mean as i32, s)
}
