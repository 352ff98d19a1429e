// The standardized difference of a residue, from the logs. Document 02, request One.
ghost use Rattle.std.specs.Prelude.{◌≡◌};
ghost use Rattle.difference.specs.Residue.{residue_value, residue_difference};

use crate::difference::Difference;
use crate::distance::scaled;

// The last compound with the first value, and the two values, in thousandths.
const LAST_OF_FIRST: u8 = 16;

const FIRST_VALUE: u32 = 200;

const SECOND_VALUE: u32 = 250;

// Ten tenths make one standardizing value.
const TENTHS: u32 = 10;

// The standardizing value of a compound, in thousandths.
fn residue_value(compound: u8) -> u32
    ensures { result ≡ residue_value compound }
{
    if compound <= LAST_OF_FIRST {
        FIRST_VALUE
    } else {
        SECOND_VALUE
    }
}

// The standardized difference of a result log from the comparison log, both in thousandths.
pub fn residue_difference(compound: u8, comparison: i16, res: i16) -> Difference
    ensures { result ≡ residue_difference compound comparison res }
{
    scaled(
        TENTHS,
        res as i32 - comparison as i32,
        residue_value(compound),
    )
}
