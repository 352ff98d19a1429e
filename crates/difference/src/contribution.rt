// What a difference adds to each of its analyte's four charts, and the charts' limits. Document 01, "Contributions to the charts".
ghost use Rattle.std.specs.Prelude.{◌≡◌, ◌≤◌, nat_abs};
ghost use Rattle.difference.specs.Contribution.{increment_of, positive_of, negative_of, variable_of, measure_of, deviant_of, contributions_of, limit_of};

use crate::constants::Constants;
use crate::difference::Difference;
use crate::nearest::nearest;

// What is added to the four charts of an analyte: the regulation's increments, for N with its sign
// turned.
#[derive(Clone, Copy)]
pub struct Contributions {
    pub p: i32,
    pub n: i32,
    pub v: i32,
    pub d: i32,
}

// The least size of a large deviation, in tenths.
const LARGE: u32 = 25;

// 1, in ten-thousandths.
const WHOLE: u64 = 10_000;

// The large deviation measure of a size, in ten-thousandths.
#[tactic(auto, unfolding(crate::specs::Contribution::measure_of))]
pub fn measure(size: u32) -> u32
    ensures { result ≡ measure_of size }
{
    if size < LARGE {
        0
    } else {
        nearest(WHOLE * (size - LARGE) as u64, size as u64) as u32
    }
}

// The highest increment of P and N, either way.
const STEP: i32 = 20;

// The increment of P and N for a difference `d`, by the turning points above and below 0.
#[tactic(auto, unfolding(crate::specs::Contribution::increment_of))]
fn increment(d: i32, high: u8, low: u8, shift: i32) -> i32
    requires { nat_abs shift ≤ 255 }
    ensures { result ≡ increment_of high low shift d }
{
    if d > high as i32 {
        STEP
    } else if d < -(low as i32) {
        -STEP
    } else {
        d - shift
    }
}

// What a size of V is held against, and the lowest and the highest contribution to V.
const USUAL: i32 = 9;

const LOWEST_V: i32 = -4;

const HIGHEST_V: i32 = 16;

// The size from which on that highest is had.
const FAR: u32 = (USUAL + HIGHEST_V) as u32;

// To V, by the difference's size.
#[tactic(auto, unfolding(crate::specs::Contribution::variable_of))]
fn variable(size: u32) -> i32
    ensures { result ≡ variable_of size }
{
    (size.min(FAR) as i32 - USUAL).max(LOWEST_V)
}

// What the measure is held against in D.
const ALLOWANCE: i32 = 250;

// To D, by the difference's size.
#[tactic(auto, using(crate::proofs::Bounds::measure_small))]
fn deviant(size: u32) -> i32
    ensures { result ≡ deviant_of size }
{
    measure(size) as i32 - ALLOWANCE
}

// The limits of V and D.
const LIMIT_V: i32 = 43;

const LIMIT_D: i32 = 10_000;

#[tactic(auto, using(crate::proofs::Bounds::increment_small))]
impl Constants {
    // To P.
    fn positive(self, d: i32) -> i32
        ensures { result ≡ positive_of self d }
    {
        increment(d, self.high, self.low, self.shift as i32)
    }

    // To N: the turning points change places, and the increment is subtracted from the chart.
    fn negative(self, d: i32) -> i32
        ensures { result ≡ negative_of self d }
    {
        -increment(d, self.low, self.high, -(self.shift as i32))
    }

    // A difference's contributions to its analyte's four charts: P and N, systematic difference above and
    // below 0, V, variability, and D, large deviations.
    pub fn contribute(self, d: Difference) -> Contributions
        ensures { result ≡ contributions_of self d.tenths }
    {
        let size = d.tenths.unsigned_abs();
        Contributions {
            p: self.positive(d.tenths),
            n: self.negative(d.tenths),
            v: variable(size),
            d: deviant(size),
        }
    }

    // The limit of a chart, numbered 0 P, 1 N, 2 V, 3 D. No other number is a chart's. A number and no enum:
    // fewer would ask more of callers.
    pub fn limit(self, chart: u8) -> i32
        ensures { result ≡ limit_of self chart }
    {
        match chart {
            0 | 1 => self.limit as i32,
            2 => LIMIT_V,
            3 => LIMIT_D,
            _ => 0,
        }
    }
}
