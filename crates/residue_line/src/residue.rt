// The format of a residue line: 12 bytes, their fields, rows 3, 4, 14, 15 and 7 and the record, both ways.

ghost use Rattle.std.specs.Prelude.{◌≡◌};
ghost use Rattle.std.proofs.Common.{lit<};
ghost use Rattle.residue_line.specs.Residue.{residue};
ghost use Rattle.residue_line.specs.bounds.Tables.{are_tables};

use crate::fields::{BYTES, Fields, result_of, tagged_of};
use crate::record::Record;
use digits::Number;
use field::date_row;
use field::residue::{compound_row, log_row, residue_kind_row, result_row};
use format::{Format, tagged_at};
use rows::refusal::Refusal;
use rows::{Row, first_of_by};

// The format of a residue line of a compound.
#[derive(Clone, Copy)]
pub struct ResidueLine {
    pub compound: u8,
}

impl Format<BYTES> for ResidueLine {
    type Fields = Fields;

    type Record = Record;

    ghost layout = { λ format. residue format.compound };

    ghost small = { lit< tt };

    ghost tables = { λ format fields. are_tables format.compound fields };

    fn fields_in(self, b: &[u8]) -> Fields {
        Fields {
            kind: u8::at(b, 0),
            year: u16::at(b, 1),
            month: u8::at(b, 3),
            days: u8::at(b, 4),
            compound: u8::at(b, 5),
            comparison: i16::at(b, 6),
            result: tagged_at(b, 8),
            count: u8::at(b, 11),
        }
    }

    fn bytes_in(self, f: Fields) -> [u8; BYTES] {
        let year = f.year.to_be_bytes();
        let comparison = f.comparison.to_be_bytes();
        let result = f.result.number.to_be_bytes();
        [
            f.kind,
            year[0],
            year[1],
            f.month,
            f.days,
            f.compound,
            comparison[0],
            comparison[1],
            f.result.tag,
            result[0],
            result[1],
            f.count,
        ]
    }

    // The first of these rows that fits, in request One's order.
    #[tactic(auto, unfolding(rows::specs::Rows::first_row))]
    fn first_row(self, f: Fields) -> Result<(), Refusal> {
        first_of_by(&[
            Row::new(Refusal::Kind, residue_kind_row(f.kind)),
            Row::new(Refusal::Date, date_row(f.year, f.month)),
            Row::new(Refusal::Compound, compound_row(self.compound, f.compound)),
            Row::new(Refusal::Log, log_row(f.comparison, f.result)),
            Row::new(Refusal::Reading, result_row(f.result, f.count)),
        ])
    }

    fn record_of(self, f: Fields) -> Result<Record, Refusal> {
        self.first_row(f)?;
        Ok(Record {
            kind: f.kind,
            year: f.year,
            month: f.month,
            days: f.days,
            compound: f.compound,
            comparison: f.comparison,
            result: result_of(f.result),
            count: f.count,
        })
    }

    fn fields_of(self, r: Record) -> Fields {
        Fields {
            kind: r.kind,
            year: r.year,
            month: r.month,
            days: r.days,
            compound: r.compound,
            comparison: r.comparison,
            result: tagged_of(r.result),
            count: r.count,
        }
    }
}
