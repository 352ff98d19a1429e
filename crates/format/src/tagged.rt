// A tagged number among a line's bytes.

ghost use Rattle.std.specs.Prelude.{◌≡◌};
ghost use Rattle.format.specs.Tagged.{tagged_at};

use digits::Number;
use field::Tagged;

// The tag at a place, and the number that the bytes after it make. The place is a `u8`, so that
// `place + 1` is a `usize` without a premise.
pub fn tagged_at<N: Number>(bytes: &[u8], place: u8) -> Tagged<N>
    ensures { result ≡ tagged_at N.number_at bytes.now place }
{
    let place = usize::from(place);
    Tagged {
        tag: u8::at(bytes, place),
        number: N::at(bytes, place + 1),
    }
}
