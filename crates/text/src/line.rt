// A line of hexadecimal text, put into a buffer.

ghost use Rattle.std.specs.Prelude.{◌≡◌, ◌≤◌, length};
ghost use Rattle.text.specs.Text.{line_text};
ghost use Rattle.text.specs.Buffer.{with_text};

use crate::NEWLINE;
use digits::write_digits;

// Puts the digits of the bytes and a newline at the start of the room, and gives the place after them.
#[tactic(auto, using(crate::proofs::BufferLaws::line_length_lem, crate::proofs::BufferLaws::line_put, std::proofs::lemmas::Grind::common_steps))]
pub fn put_line(bytes: &[u8], room: &mut [u8]) -> usize
    requires { length (line_text bytes.now) ≤ length room.old }
    ensures place { result ≡ length (line_text bytes.now) }
    ensures text { room.new ≡ with_text room.old 0 (line_text bytes.now) }
{
    write_digits(bytes, room);
    let end = 2 * bytes.len();
    room[end] = NEWLINE;
    end + 1
}
