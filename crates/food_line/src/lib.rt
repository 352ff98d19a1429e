// A line of a food check sample: 68 digits read to a record, and a record written back as a line.

#![tactic(auto)]

mod fields;
pub mod food;
pub mod record;

ghost use Rattle.std.specs.Prelude.{◌≡◌};
ghost use Rattle.rows.specs.Rows.{Answers};
ghost use Rattle.format.specs.Write.{BufferKept};
ghost use Rattle.food_line.specs.Amount.{amount_of};
ghost use Rattle.food_line.specs.Inverse.{WritesBack, ReadsBack};
ghost use Rattle.food_line.specs.Read.{read_of, line_rows};
ghost use Rattle.food_line.specs.Write.{written_of, buffer_after, write_rows};

use fields::BYTES;
use food::FoodLine;
use percent::hundredths_of;
use record::{Reading, Record};
use rows::refusal::Refusal;

// How many digits a line has.
pub const DIGITS: usize = 2 * BYTES;

// The record that a line holds, or the first row that refuses it.
// `whole`: the answer is the definition's. `back`: writing the record returns the line.
// `first`: a line is refused exactly where a row fits, by the first that does.
#[tactic(auto, unfolding(crate::specs::Read::read_of))]
pub fn read(line: &[u8]) -> Result<Record, Refusal>
    ensures whole { result ≡ read_of line.now }
    ensures back { WritesBack line.now result }
    ensures first { Answers (line_rows line.now) result }
{
    format::read(FoodLine, line)
}

// Puts the line of a record at the start of a buffer, or leaves the buffer alone and gives the
// first row that refuses.
// `answer` and `bytes`: the answer and every byte of the buffer are the definitions'. `back`: reading
// what was written returns the record. `kept`: a refusal changes no byte. `first`: as for `read`.
#[tactic(auto, unfolding(crate::specs::Write::written_of, crate::specs::Write::buffer_after))]
pub fn write(record: Record, buffer: &mut [u8]) -> Result<(), Refusal>
    ensures answer { result ≡ written_of «record» buffer.old }
    ensures bytes { buffer.new ≡ buffer_after «record» buffer.old }
    ensures back { ReadsBack «record» buffer.new result }
    ensures kept { BufferKept buffer.old buffer.new result }
    ensures first { Answers (write_rows «record» buffer.old) result }
{
    format::write(FoodLine, record, buffer)
}

// A reading in hundredths of a percent, to the nearest, halves up. Nothing found counts as 0.
#[tactic(auto, unfolding(crate::specs::Amount::amount_of, percent::specs::Percent::rounded_of))]
pub fn hundredths(reading: Reading) -> Option<u16>
    ensures { result ≡ amount_of reading }
{
    match reading {
        Reading::Percent(x) => hundredths_of(x),
        Reading::NothingFound => Some(0),
        Reading::Lost => None,
    }
}
