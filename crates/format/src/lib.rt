// What every format of a line shares: rows 1, 2 and 13 of the refusals, which come before a format's own
// rows, and reading and writing. Document 01, "The line" and "Refused".

#![tactic(auto)]

mod line;
mod tagged;

ghost use Rattle.std.specs.Prelude.{◌≡◌, ◌<◌, ◌^◌, Ok};
ghost use Rattle.rows.specs.Rows.{first_row, by_row, Answers};
ghost use Rattle.format.specs.Layout.{Layout, read_of, line_rows, written_of, buffer_after, write_rows, SameLine, WritesBack, ReadsBack};
ghost use Rattle.format.specs.Sound.{AreTables, FieldsBack, RecordBack};
ghost use Rattle.format.specs.Write.{BufferKept};

pub use line::{read_line, write_line, write_line_by};
use rows::refusal::Refusal;
pub use tagged::tagged_at;

// A format of lines of so many bytes: the fields that the bytes hold, the first row that refuses the
// fields, and the record that they hold where none does, both ways.
pub trait Format<const BYTES: usize>: Copy {
    type Fields: Copy;

    type Record: Copy;

    ghost layout: { Self → Layout Self.Fields Self.Record };

    fn fields_in(self, bytes: &[u8]) -> Self::Fields
        ensures { result ≡ (layout self).fields_in bytes.now };

    fn bytes_in(self, fields: Self::Fields) -> [u8; BYTES]
        ensures { result ≡ (layout self).bytes_in fields };

    fn first_row(self, fields: Self::Fields) -> Result<(), Refusal>
        ensures { result ≡ first_row ((layout self).rows fields) };

    fn record_of(self, fields: Self::Fields) -> Result<Self::Record, Refusal>
        ensures held { result ≡ by_row ((layout self).record_of fields) (first_row ((layout self).rows fields)) }
        ensures back { first_row ((layout self).rows fields) ≡ Ok tt → FieldsBack BYTES (layout self) fields };

    fn fields_of(self, held: Self::Record) -> Self::Fields
        ensures fields { result ≡ (layout self).fields_of held }
        ensures back { RecordBack BYTES (layout self) held };

    // A line's bytes fit in memory, and the fields' rows are a table.
    ghost small: { BYTES < 2 ^ 63 };

    ghost tables: { (format : Self) (fields : Self.Fields) → AreTables BYTES (layout format) fields };
}

// The record that a line holds, or the first row that refuses it.
// `whole`: the answer is the definition's. `same` and `back`: the record's line is the line, and writing
// the record returns it.
// `first`: a line is refused exactly where a row fits, by the first that does.
pub fn read<F: Format<BYTES>, const BYTES: usize>(
    format: F,
    line: &[u8],
) -> Result<F::Record, Refusal>
    ensures whole { result ≡ read_of BYTES (F.layout format) line.now }
    ensures same { SameLine BYTES (F.layout format) line.now result }
    ensures back { WritesBack BYTES (F.layout format) line.now result }
    ensures first { Answers (line_rows BYTES (F.layout format) line.now) result }
{
    let mut bytes = [0; BYTES];
    read_line(line, &mut bytes)?;
    format.record_of(format.fields_in(&bytes))
}

// Puts the line of a record at the start of a buffer, or leaves the buffer alone and gives the
// first row that refuses.
// `answer` and `bytes`: the answer and every byte of the buffer are the definitions'. `back`: reading
// what was written returns the record. `kept`: a refusal changes no byte. `first`: as for `read`.
pub fn write<F: Format<BYTES>, const BYTES: usize>(
    format: F,
    held: F::Record,
    buffer: &mut [u8],
) -> Result<(), Refusal>
    ensures answer { result ≡ written_of BYTES (F.layout format) held buffer.old }
    ensures bytes { buffer.new ≡ buffer_after BYTES (F.layout format) held buffer.old }
    ensures back { ReadsBack BYTES (F.layout format) held buffer.new result }
    ensures kept { BufferKept buffer.old buffer.new result }
    ensures first { Answers (write_rows BYTES (F.layout format) held buffer.old) result }
{
    let fields = format.fields_of(held);
    let bytes = format.bytes_in(fields);
    write_line_by(format.first_row(fields), &bytes, buffer)
}
