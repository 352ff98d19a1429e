// What the unit asks of a line's date and days, whatever its format.
ghost use Rattle.std.specs.Prelude.{◌≡◌};
ghost use Rattle.seen.specs.Date.{month_number, is_late};

// The month number: 12 × year + month. A type of the two, for here and row 4, is no plainer:
// `month_number(r.date)` against `month_number(r.year, r.month)`.
pub fn month_number(year: u16, month: u8) -> u32
    ensures { result ≡ month_number year month }
{
    12 * year as u32 + month as u32
}

// Days from receipt to result after which a line is missed.
const LATE: u8 = 21;

pub fn is_late(days: u8) -> bool
    ensures { result ≡ is_late days }
{
    LATE < days
}
