// What the rows say of the fields of a residue line, each true where the row fits, and the numbers
// that they go by: document 02, request One. The date's row is food's.

ghost use Rattle.std.specs.Prelude.{◌≡◌};
ghost use Rattle.field.specs.Residue.{residue_kind_row, no_compound, compound_row, outside, log_row, result_row};

use crate::{LOST, Tagged};

// The kind of a residue line.
pub const RESIDUE_KIND: u8 = 3;

// The compounds are 0 to 19.
pub const LAST_COMPOUND: u8 = 19;

// Logs are in thousandths.
const LEAST_LOG: i16 = -9999;

const MOST_LOG: i16 = 9999;

// The tag of a result; a lost one has food's.
pub const RESULT: u8 = 0;

// The highest count of misidentifications.
const MOST_COUNT: u8 = 20;

// A kind that no residue line has.
#[tactic(auto, unfolding(crate::specs::Residue::residue_kind_row))]
pub fn residue_kind_row(kind: u8) -> bool
    ensures { result ≡ residue_kind_row kind }
{
    kind != RESIDUE_KIND
}

// A number that stands for no compound.
#[tactic(auto, unfolding(crate::specs::Residue::no_compound))]
pub fn no_compound(compound: u8) -> bool
    ensures { result ≡ no_compound compound }
{
    LAST_COMPOUND < compound
}

// No compound, or another than the one given.
#[tactic(auto, unfolding(crate::specs::Residue::compound_row))]
pub fn compound_row(given: u8, compound: u8) -> bool
    ensures { result ≡ compound_row given compound }
{
    no_compound(compound) | (compound != given)
}

#[tactic(auto, unfolding(crate::specs::Residue::outside))]
fn is_outside(log: i16) -> bool
    ensures { result ≡ outside log }
{
    !(LEAST_LOG..=MOST_LOG).contains(&log)
}

// A log that no line has: the result's is looked at under its own tag alone.
#[tactic(auto, unfolding(crate::specs::Residue::log_row))]
pub fn log_row(comparison: i16, t: Tagged<i16>) -> bool
    ensures { result ≡ log_row comparison t }
{
    is_outside(comparison) | ((t.tag == RESULT) & is_outside(t.number))
}

// A tag, a lost result or a count that no line has.
#[tactic(auto, unfolding(crate::specs::Residue::result_row))]
pub fn result_row(t: Tagged<i16>, count: u8) -> bool
    ensures { result ≡ result_row t count }
{
    !matches!(t.tag, RESULT | LOST) | ((t.tag == LOST) & (t.number != 0)) | (MOST_COUNT < count)
}
