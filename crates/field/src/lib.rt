// Rows 3 to 7 of the refusals, each true where the row fits, and the numbers that they go by: document
// 01, "Refused". Those of a residue line stand in `residue`. Kinds, tags and products are bytes here, and
// no enums: a row is asked of any byte that a line or a record holds, and fewer would ask more of callers.

#![tactic(auto)]

pub mod class;
pub mod residue;

ghost use Rattle.std.specs.Prelude.{◌≡◌};
ghost use Rattle.field.specs.Refused.{kind_row, date_row, product_row, mean_row, reading_row};

use class::Class;
use percent::is_accepted;

// The kinds of a food line.
pub const MAINTENANCE: u8 = 1;

pub const STUDY: u8 = 2;

// The years of a line.
const FIRST_YEAR: u16 = 2000;

const LAST_YEAR: u16 = 2099;

// The highest mean: a hundred percent, in hundredths.
pub const MOST: u16 = 10000;

// The least mean of protein, and of ground beef's fat.
pub const LEAST_PROTEIN: u16 = 5;

pub const LEAST_BEEF_FAT: u16 = 1250;

// The comparison means of the four analytes, in hundredths of a percent.
#[derive(Clone, Copy)]
pub struct Means {
    pub moisture: u16,
    pub protein: u16,
    pub fat: u16,
    pub salt: u16,
}

// The tags of a reading.
pub const PERCENT: u8 = 0;

pub const NOTHING_FOUND: u8 = 1;

pub const LOST: u8 = 2;

// A reading or a result as a line has it: the tag, and the number that the bytes after it make.
#[derive(Clone, Copy)]
pub struct Tagged<T> {
    pub tag: u8,
    pub number: T,
}

// A kind that no food line has.
#[tactic(auto, unfolding(crate::specs::Refused::kind_row))]
pub fn kind_row(kind: u8) -> bool
    ensures { result ≡ kind_row kind }
{
    !matches!(kind, MAINTENANCE | STUDY)
}

// A year or a month that no line has.
#[tactic(auto, unfolding(crate::specs::Refused::date_row))]
pub fn date_row(year: u16, month: u8) -> bool
    ensures { result ≡ date_row year month }
{
    !(FIRST_YEAR..=LAST_YEAR).contains(&year) | !(1..=12).contains(&month)
}

// A product that no line has. Bit 7 is for dry salami or pepperoni, which are other meat.
#[tactic(auto, unfolding(crate::specs::Refused::product_row))]
pub fn product_row(product: u8) -> bool
    ensures { result ≡ product_row product }
{
    (product >> 2 & 31 != 0) | ((product >> 7 != 0) & (Class::of(product) != Class::OtherMeat))
}

// Means that no line of the product has.
#[tactic(auto, unfolding(crate::specs::Refused::mean_row))]
pub fn mean_row(product: u8, m: Means) -> bool
    ensures { result ≡ mean_row product m }
{
    ((MOST < m.moisture) | (MOST < m.protein) | (MOST < m.fat) | (MOST < m.salt))
        | (m.protein < LEAST_PROTEIN)
        | (m.fat == 0)
        | ((Class::of(product) == Class::GroundBeef) & (m.fat < LEAST_BEEF_FAT))
}

// A reading that no line has.
#[tactic(auto, unfolding(crate::specs::Refused::reading_row))]
pub fn reading_row(t: Tagged<u32>) -> bool
    ensures { result ≡ reading_row t }
{
    match t.tag {
        PERCENT => !is_accepted(t.number),
        NOTHING_FOUND | LOST => t.number != 0,
        _ => true,
    }
}
