// The digits of a line to bytes and back, with rows 1, 2 and 13 of the refusals.

ghost use Rattle.std.specs.Prelude.{◌≡◌, ◌*◌, length};
ghost use Rattle.rows.specs.Rows.{first_row};
ghost use Rattle.digits.specs.Digits.{digits_of};
ghost use Rattle.digits.specs.Slices.{bytes_after};
ghost use Rattle.format.specs.Read.{form_rows};
ghost use Rattle.format.specs.Write.{short_by, short_or, buffer_by};

use digits::{read_digits, write_digits};
use rows::reason::Reason;
use rows::refusal::Refusal;

// Reads a line of two digits for each lent byte; or gives the first of rows 1 and 2 that fits, and no
// byte changes.
#[tactic(auto, unfolding(digits::specs::Slices::readable, digits::specs::Slices::bytes_after, rows::specs::Rows::first_row))]
#[inline(always)]
pub fn read_line(line: &[u8], bytes: &mut [u8]) -> Result<(), Refusal>
    ensures row { result ≡ first_row (form_rows (2 * length bytes.old) line.now) }
    ensures bytes { bytes.new ≡ bytes_after line.now bytes.old }
{
    if (line.len() % 2 != 0) | (line.len() / 2 != bytes.len()) {
        return Err(Refusal::Length);
    }
    if !read_digits(line, bytes) {
        return Err(Refusal::Digit);
    }
    Ok(())
}

// Puts the digits of a record's bytes at the start of a buffer, or leaves it alone: where it is short,
// or where the record's own rows refuse, by what stands there for a refusal.
#[tactic(auto, unfolding(crate::specs::Write::buffer_by, digits::specs::Slices::has_room, digits::specs::Slices::digits_after), using(digits::proofs::ByteLaws::length_digits_of))]
pub fn write_line_by<R: Reason>(
    row: Result<(), R>,
    bytes: &[u8],
    buffer: &mut [u8],
) -> Result<(), R>
    ensures answer { result ≡ short_by R.reason (2 * length bytes.now) buffer.old row }
    ensures digits { buffer.new ≡ buffer_by (short_by R.reason (2 * length bytes.now) buffer.old row) (digits_of bytes.now) buffer.old }
{
    if buffer.len() / 2 < bytes.len() {
        return Err(R::reason(Refusal::Short));
    }
    row?;
    write_digits(bytes, buffer);
    Ok(())
}

// The same where a row is by its name, so that a call need not say what stands for a refusal.
pub fn write_line(row: Result<(), Refusal>, bytes: &[u8], buffer: &mut [u8]) -> Result<(), Refusal>
    ensures answer { result ≡ short_or (2 * length bytes.now) buffer.old row }
    ensures digits { buffer.new ≡ buffer_by (short_or (2 * length bytes.now) buffer.old row) (digits_of bytes.now) buffer.old }
{
    write_line_by(row, bytes, buffer)
}

#[cfg(test)]
mod tests {
    use super::*;

    // Nothing says here what stands for a refusal.
    #[test]
    fn two_digits_a_byte(rt: HostRuntime) {
        let mut buffer = [b'-'; 5];
        assert!(rt; write_line(Ok(()), &[0x0a, 0xf1], &mut buffer).is_ok());
        assert_eq!(rt; &buffer, b"0af1-");
    }

    // Row 13 comes before the record's own.
    #[test]
    fn short_comes_first(rt: HostRuntime) {
        let mut buffer = [b'-'; 3];
        assert_eq!(rt;
            write_line(Err(Refusal::Kind), &[0x0a, 0xf1], &mut buffer),
            Err(Refusal::Short)
        );
        assert_eq!(rt; &buffer, b"---");
    }
}
