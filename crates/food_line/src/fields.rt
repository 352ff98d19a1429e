// The fields of a line as numbers, in the order of document 01's table, and their parts as bytes and
// readings.

ghost use Rattle.std.specs.Prelude.{◌≡◌, false, ◌<◌, ◌+◌};
ghost use Rattle.std.proofs.lemmas.List.Edits.{sets};
ghost use Rattle.digits.specs.Numbers.{number_bytes};
ghost use Rattle.food_line.specs.Fields.{line_bytes, bytes5, reading_of, tagged_of};
ghost use Rattle.food_line.specs.bounds.Types.{TypedReading};
ghost use Rattle.field.specs.Refused.{reading_row};

use crate::record::Reading;
use field::{LOST, Means, NOTHING_FOUND, PERCENT, Tagged};
use percent::bits_of;

// How many bytes a line's digits write.
pub const BYTES: usize = 34;

// One type for these and the record, with four `Tagged<u32>` or four `Reading`, would save this list alone: no
// struct update changes a type, so either would be written out from the other as it is.
#[derive(Clone, Copy)]
pub struct Fields {
    pub kind: u8,
    pub year: u16,
    pub month: u8,
    pub days: u8,
    pub product: u8,
    pub means: Means,
    pub moisture: Tagged<u32>,
    pub protein: Tagged<u32>,
    pub fat: Tagged<u32>,
    pub salt: Tagged<u32>,
}

// Puts a number's two bytes at i. By hand: with `b[i..i + 2].copy_from_slice(..)` for each part the proof that
// the 34 bytes are `bytes_in` did not close (`rw` broke off at its limit of 10,000,000 steps).
pub fn put2(mut b: [u8; BYTES], i: usize, n: u16) -> [u8; BYTES]
    requires { i + 1 < line_bytes }
    ensures { result ≡ sets b i (number_bytes 2 n) }
{
    let bytes = n.to_be_bytes();
    b[i] = bytes[0];
    b[i + 1] = bytes[1];
    b
}

// Puts a tagged reading's five bytes at i, by hand as `put2` does.
pub fn put5(mut b: [u8; BYTES], i: usize, t: Tagged<u32>) -> [u8; BYTES]
    requires { i + 4 < line_bytes }
    ensures { result ≡ sets b i (bytes5 t) }
{
    let bytes = t.number.to_be_bytes();
    b[i] = t.tag;
    b[i + 1] = bytes[0];
    b[i + 2] = bytes[1];
    b[i + 3] = bytes[2];
    b[i + 4] = bytes[3];
    b
}

// A reading by its tag, of fields that no row refuses: no `From`, which may ask nothing.
#[tactic(auto, unfolding(crate::specs::Fields::reading_of))]
pub fn reading_of(t: Tagged<u32>) -> Reading
    requires { reading_row t ≡ false }
    ensures { result ≡ reading_of t }
{
    match t.tag {
        PERCENT => Reading::Percent(f32::from_bits(t.number)),
        NOTHING_FOUND => Reading::NothingFound,
        _ => Reading::Lost,
    }
}

// A reading's tag and number. A percent is a value of binary32, by its type.
#[tactic(auto, unfolding(crate::specs::Fields::tagged_of))]
impl From<Reading> for Tagged<u32> {
    ghost from_gives = { λ r t. (t ≡ tagged_of r) × TypedReading r };

    fn from(r: Reading) -> Tagged<u32> {
        match r {
            Reading::Percent(x) => Tagged {
                tag: PERCENT,
                number: bits_of(x),
            },
            Reading::NothingFound => Tagged {
                tag: NOTHING_FOUND,
                number: 0,
            },
            Reading::Lost => Tagged {
                tag: LOST,
                number: 0,
            },
        }
    }
}
