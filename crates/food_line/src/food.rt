// The format of a food line: 34 bytes, their fields, rows 3 to 7 and the record, both ways.

ghost use Rattle.std.specs.Prelude.{◌≡◌};
ghost use Rattle.std.proofs.Common.{lit<};
ghost use Rattle.food_line.specs.Food.{food};
ghost use Rattle.food_line.specs.bounds.Tables.{are_tables};

use crate::fields::{BYTES, Fields, put2, put5, reading_of};
use crate::record::{Readings, Record};
use digits::Number;
use field::{Means, date_row, kind_row, mean_row, product_row, reading_row};
use format::{Format, tagged_at};
use rows::refusal::Refusal;
use rows::{Row, first_of_by};

// The format of a food line.
#[derive(Clone, Copy)]
pub struct FoodLine;

impl Format<BYTES> for FoodLine {
    type Fields = Fields;

    type Record = Record;

    ghost layout = { λ format. food };

    ghost small = { lit< tt };

    ghost tables = { λ format fields. are_tables fields };

    fn fields_in(self, b: &[u8]) -> Fields {
        Fields {
            kind: u8::at(b, 0),
            year: u16::at(b, 1),
            month: u8::at(b, 3),
            days: u8::at(b, 4),
            product: u8::at(b, 5),
            means: Means {
                moisture: u16::at(b, 6),
                protein: u16::at(b, 8),
                fat: u16::at(b, 10),
                salt: u16::at(b, 12),
            },
            moisture: tagged_at(b, 14),
            protein: tagged_at(b, 19),
            fat: tagged_at(b, 24),
            salt: tagged_at(b, 29),
        }
    }

    fn bytes_in(self, f: Fields) -> [u8; BYTES] {
        let mut b = [0u8; BYTES];
        b[0] = f.kind;
        b[3] = f.month;
        b[4] = f.days;
        b[5] = f.product;
        b = put2(b, 1, f.year);
        b = put2(b, 6, f.means.moisture);
        b = put2(b, 8, f.means.protein);
        b = put2(b, 10, f.means.fat);
        b = put2(b, 12, f.means.salt);
        b = put5(b, 14, f.moisture);
        b = put5(b, 19, f.protein);
        b = put5(b, 24, f.fat);
        put5(b, 29, f.salt)
    }

    // The first of rows 3 to 7 that fits.
    #[tactic(auto, unfolding(rows::specs::Rows::first_row))]
    fn first_row(self, f: Fields) -> Result<(), Refusal> {
        first_of_by(&[
            Row::new(Refusal::Kind, kind_row(f.kind)),
            Row::new(Refusal::Date, date_row(f.year, f.month)),
            Row::new(Refusal::Product, product_row(f.product)),
            Row::new(Refusal::Mean, mean_row(f.product, f.means)),
            Row::new(
                Refusal::Reading,
                reading_row(f.moisture)
                    | reading_row(f.protein)
                    | reading_row(f.fat)
                    | reading_row(f.salt),
            ),
        ])
    }

    #[tactic(auto, using(crate::proofs::RowLaws::clean))]
    fn record_of(self, f: Fields) -> Result<Record, Refusal> {
        self.first_row(f)?;
        Ok(Record {
            kind: f.kind,
            year: f.year,
            month: f.month,
            days: f.days,
            product: f.product,
            means: f.means,
            readings: Readings {
                moisture: reading_of(f.moisture),
                protein: reading_of(f.protein),
                fat: reading_of(f.fat),
                salt: reading_of(f.salt),
            },
        })
    }

    fn fields_of(self, r: Record) -> Fields {
        Fields {
            kind: r.kind,
            year: r.year,
            month: r.month,
            days: r.days,
            product: r.product,
            means: r.means,
            moisture: r.readings.moisture.into(),
            protein: r.readings.protein.into(),
            fat: r.readings.fat.into(),
            salt: r.readings.salt.into(),
        }
    }
}
