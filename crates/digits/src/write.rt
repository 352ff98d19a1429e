// Bytes of a slice to digits.

ghost use Rattle.std.specs.Prelude.{◌≡◌};
ghost use Rattle.digits.specs.Slices.{has_room, digits_after};

use crate::digit::{high_digit, low_digit};

// Puts the digits of bytes at the start of a buffer, or, where they have no room, leaves it alone. A yes
// or a no, since the buffer is lent: an `Option<()>` says no more.
pub fn write_digits(bytes: &[u8], buffer: &mut [u8]) -> bool
    ensures answer { result ≡ has_room bytes.now buffer.old }
    ensures digits { buffer.new ≡ digits_after bytes.now buffer.old }
{
    if buffer.len() / 2 < bytes.len() {
        return false;
    }
    // By index. A zip over the pairs that `as_chunks_mut` lends was tried: the goal at the end has for the
    // buffer a list, `given`, of which nothing is known.
    for (i, byte) in bytes.iter().enumerate() {
        let at = 2 * i;
        buffer[at] = high_digit(*byte);
        buffer[at + 1] = low_digit(*byte);
    }
    true
}
