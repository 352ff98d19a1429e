// Room in a buffer.
ghost use Rattle.std.specs.Prelude.{◌≡◌};
ghost use Rattle.text.specs.Buffer.{room_from};

// Whether a buffer of this length has room for so many bytes at a place. A `match` on
// `get_mut` was tried: the borrow checker does not cover it, "a pattern reaches into a variant's field that is
// a slice or a `&mut`".
pub fn has_room(length: usize, at: usize, size: usize) -> bool
    ensures { result ≡ room_from size length at }
{
    at <= length && size <= length - at
}
