// A word of eight characters, the first highest, read at once: document 02, request Four. Whatever the
// word, nothing here carries from one character into another; and what they stand for and the test do
// not go by the order, so that a word as it is loaded, the first lowest, is given to these too.

ghost use Rattle.std.specs.Prelude.{◌≡◌};
ghost use Rattle.digits.specs.Digits.{are_digits};
ghost use Rattle.digits.specs.Word.{characters_in, step_of};
ghost use Rattle.digits.specs.bounds.Found.{letter_in, value_in, each_in, FourBy};

use rows::refusal::Refusal;

// The second of each two bytes, of each two pairs of bytes and of the two halves of a word.
const SECOND_BYTES: u64 = 0x00ff_00ff_00ff_00ff;

const SECOND_PAIRS: u64 = 0x0000_ffff_0000_ffff;

const SECOND_HALF: u64 = 0xffff_ffff;

// Bit 6 of each character.
fn letters(word: u64) -> u64
    ensures { result ≡ each_in letter_in word }
{
    (word >> 6) & 0x0101_0101_0101_0101
}

// What each character stands for, if it is a digit.
pub fn values(word: u64) -> u64
    ensures { result ≡ each_in value_in word }
{
    (word & 0x0f0f_0f0f_0f0f_0f0f) + 9 * letters(word)
}

// The step's test: whether all eight are digits. A character is one exactly where its upper half, with
// bit 5 turned over where bit 6 is set, so that a 6 becomes a 4, is that of its value with 0x36 added,
// which is 3 up to the value 9 and 4 from 10 on, and its value is below 16: so with bit 6 clear 3 above
// and 0 to 9 below, and with it set 6 above and 1 to 6 below.
pub fn are_eight(word: u64) -> bool
    ensures { result ≡ are_digits (characters_in word) }
{
    let value = values(word);
    let upper = word ^ (32 * letters(word));
    ((upper ^ (value + 0x3636_3636_3636_3636)) | value) & 0xf0f0_f0f0_f0f0_f0f0 == 0
}

// The step's bytes, by what eight digits stand for: joined two by two, three times.
pub fn four_by(value: u64) -> u32
    ensures { FourBy value result }
{
    let bytes = (value | (value >> 4)) & SECOND_BYTES;
    let pairs = (bytes | (bytes >> 8)) & SECOND_PAIRS;
    ((pairs | (pairs >> 16)) & SECOND_HALF) as u32
}

// The step: the four bytes that the digits of a word write, the first highest, where all eight are
// digits, else refusal 2.
#[tactic(auto, unfolding(crate::specs::Word::step_of))]
pub fn read_word(word: u64) -> Result<u32, Refusal>
    ensures { result ≡ step_of word }
{
    if are_eight(word) {
        Ok(four_by(values(word)))
    } else {
        Err(Refusal::Digit)
    }
}
