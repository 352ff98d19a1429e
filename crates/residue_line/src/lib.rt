// A line of a residue check sample: 24 digits read to a record of the compound given, and a record of
// it written back as a line. Document 02, request One.

#![tactic(auto)]

mod fields;
pub mod record;
pub mod residue;

ghost use Rattle.std.specs.Prelude.{◌≡◌};
ghost use Rattle.rows.specs.Rows.{Answers};
ghost use Rattle.format.specs.Write.{BufferKept};
ghost use Rattle.residue_line.specs.Inverse.{WritesBack, ReadsBack};
ghost use Rattle.residue_line.specs.Read.{read_of, line_rows};
ghost use Rattle.residue_line.specs.Write.{written_of, buffer_after, write_rows};

use fields::BYTES;
use record::Record;
use residue::ResidueLine;
use rows::refusal::Refusal;

// How many digits a line has.
pub const DIGITS: usize = 2 * BYTES;

// The record that a line holds, or the first row that refuses it.
// `whole`: the answer is the definition's. `back`: writing the record returns the line.
// `first`: a line is refused exactly where a row fits, by the first that does.
#[tactic(auto, unfolding(crate::specs::Read::read_of))]
pub fn read(compound: u8, line: &[u8]) -> Result<Record, Refusal>
    ensures whole { result ≡ read_of compound line.now }
    ensures back { WritesBack compound line.now result }
    ensures first { Answers (line_rows compound line.now) result }
{
    format::read(ResidueLine { compound }, line)
}

// Puts the line of a record at the start of a buffer, or leaves the buffer alone and gives the
// first row that refuses.
// `answer` and `bytes`: the answer and every byte of the buffer are the definitions'. `back`: reading
// what was written returns the record. `kept`: a refusal changes no byte. `first`: as for `read`.
#[tactic(auto, unfolding(crate::specs::Write::written_of, crate::specs::Write::buffer_after))]
pub fn write(compound: u8, record: Record, buffer: &mut [u8]) -> Result<(), Refusal>
    ensures answer { result ≡ written_of compound «record» buffer.old }
    ensures bytes { buffer.new ≡ buffer_after compound «record» buffer.old }
    ensures back { ReadsBack compound «record» buffer.new result }
    ensures kept { BufferKept buffer.old buffer.new result }
    ensures first { Answers (write_rows compound «record» buffer.old) result }
{
    format::write(ResidueLine { compound }, record, buffer)
}
