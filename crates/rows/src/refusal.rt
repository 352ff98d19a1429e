// The rows of the table of refusals: document 01, "Refused", and document 02, request One.

ghost use Rattle.std.specs.Prelude.{◌≡◌, Some};
ghost use Rattle.std.specs.Fmt.{decimal};
ghost use Rattle.rows.specs.Refusal.{number_of};

use std::fmt;

// Why a line, a record, a reading or a compound is refused: a name for each row of the table, by number.
#[derive(Clone, Copy, Debug, PartialEq, Eq)]
pub enum Refusal {
    Length = 1,
    Digit = 2,
    Kind = 3,
    Date = 4,
    Product = 5,
    Mean = 6,
    Reading = 7,
    Closed = 8,
    Stage = 9,
    Backdated = 10,
    Gap = 11,
    Full = 12,
    Short = 13,
    Compound = 14,
    Log = 15,
}

// The row's number, which is what a unit and the programs show of a refusal.
impl From<Refusal> for u8 {
    ghost from_gives = { λ refusal number. number ≡ number_of refusal };

    fn from(refusal: Refusal) -> u8 {
        refusal as u8
    }
}

impl fmt::Display for Refusal {
    ghost output = { λ refusal. Some (decimal (number_of refusal)) };

    fn fmt<W: fmt::Write>(&self, f: &mut fmt::Formatter<W>) -> fmt::Result {
        write!(f, "{}", u8::from(*self))
    }
}
