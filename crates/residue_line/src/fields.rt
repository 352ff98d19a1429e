// The fields of a residue line as numbers, in the order of request One.

ghost use Rattle.std.specs.Prelude.{◌≡◌};
ghost use Rattle.residue_line.specs.Fields.{result_of, tagged_of};

use field::residue::RESULT;
use field::{LOST, Tagged};

// How many bytes a line's digits write.
pub const BYTES: usize = 12;

// One type for these and the record, `Sample<Tagged<i16>>` and `Sample<Option<i16>>`, would save this list alone:
// no struct update changes a type, so either would be written out from the other as it is.
#[derive(Clone, Copy)]
pub struct Fields {
    pub kind: u8,
    pub year: u16,
    pub month: u8,
    pub days: u8,
    pub compound: u8,
    pub comparison: i16,
    pub result: Tagged<i16>,
    pub count: u8,
}

// A result by its tag. No `From`, for the reason that stands at the other way, below.
#[tactic(auto, unfolding(crate::specs::Fields::result_of))]
pub fn result_of(t: Tagged<i16>) -> Option<i16>
    ensures { result ≡ result_of t }
{
    (t.tag == RESULT).then_some(t.number)
}

// A result's tag and log. No `From`: here "an impl of another crate's trait must name a type of this crate", and
// in `field` it would stand away from `result_of`.
#[tactic(auto, unfolding(crate::specs::Fields::tagged_of))]
pub fn tagged_of(res: Option<i16>) -> Tagged<i16>
    ensures { result ≡ tagged_of res }
{
    match res {
        Some(number) => Tagged {
            tag: RESULT,
            number,
        },
        None => Tagged {
            tag: LOST,
            number: 0,
        },
    }
}
