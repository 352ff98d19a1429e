// What is printed for a line: its refusal's number, or the line written back, ended by a newline.

ghost use Rattle.std.specs.Prelude.{◌≡◌, ◌*◌, ◌<◌, length, take};
ghost use Rattle.format.specs.Layout.{read_of, line_of};
ghost use Rattle.lines.specs.Answer.{ANSWER, ended, refusal_text, answer_by};

use format::Format;
use rows::refusal::Refusal;

pub const NEWLINE: u8 = b'\n';

// How many bytes an answer has at most: the longest line and its newline.
pub const ANSWER: usize = food_line::DIGITS + 1;

// The first n bytes ended by a newline, put after them.
fn end_line(n: usize, out: &mut [u8]) -> &[u8]
    requires { n < length out.old }
    ensures { result.now ≡ ended (take n out.old) }
{
    out[n] = NEWLINE;
    &out[..=n]
}

// A refusal's number as two digits and a newline, put into a buffer.
#[tactic(auto, unfolding(digits::specs::Slices::has_room, digits::specs::Slices::digits_after))]
fn put_refusal(refusal: Refusal, out: &mut [u8; ANSWER]) -> &[u8]
    ensures { result.now ≡ refusal_text refusal }
{
    digits::write_digits(&[u8::from(refusal)], out);
    end_line(2, out)
}

// The answer to a line of a format, put into a buffer. Writing what was read is not refused.
pub fn put_line<'a, F: Format<BYTES>, const BYTES: usize>(
    format: F,
    line: &[u8],
    out: &'a mut [u8; ANSWER],
) -> &'a [u8]
    requires { 2 * BYTES < ANSWER }
    ensures { result.now ≡ answer_by (line_of BYTES (F.layout format)) (read_of BYTES (F.layout format) line.now) }
{
    match format::read(format, line) {
        Err(refusal) => put_refusal(refusal, out),
        Ok(held) => {
            let _ = format::write(format, held, out);
            end_line(2 * BYTES, out)
        }
    }
}
