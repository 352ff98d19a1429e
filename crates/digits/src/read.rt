// Digits of a slice to bytes: eight at a time, as words, and the tail, fewer than eight, as a word
// filled up. Words go by the parts of which the step, `read_word`, is made: the test, `are_eight`, and
// for the bytes `values` and `four_by`. They are called apart, for a refusal changes no byte, so all is
// tested before the first is put; and on words as they are loaded, so the values are turned between.

ghost use Rattle.std.specs.Prelude.{◌≡◌, true, ◌++◌, ◌+◌, ◌*◌, ◌-◌, ◌≤◌, length, take, drop};
ghost use Rattle.digits.specs.Digits.{are_digits, bytes_of};
ghost use Rattle.digits.specs.Slices.{readable, bytes_after};
ghost use Rattle.digits.specs.Word.{WRITTEN};
ghost use Rattle.digits.specs.bounds.Loaded.{loaded_in};
ghost use Rattle.digits.specs.bounds.Words.{all_digits, all_bytes};

use crate::load::{CHARACTERS, tail_word, word_of};
use crate::word::{are_eight, four_by, values};

// How many bytes the characters of a word write.
const WRITTEN: usize = CHARACTERS / 2;

// Whether the characters of words are digits. No word ends the loop, so that the compiler takes words
// together.
fn are_words(words: &[[u8; CHARACTERS]]) -> bool
    ensures { result ≡ all_digits words.now }
{
    let mut good = true;
    for word in words {
        good &= are_eight(word_of(word));
    }
    good
}

// The bytes that a word of digits writes, as it is loaded. What the digits stand for is worked out
// first, and then turned: the test has done the first already, and the compiler does it once.
fn loaded_bytes(word: u64) -> [u8; WRITTEN]
    requires { are_digits (loaded_in word) ≡ true }
    ensures { result ≡ bytes_of (loaded_in word) }
{
    four_by(values(word).swap_bytes()).to_be_bytes()
}

// Puts the bytes of words at the start.
fn put_words(words: &[[u8; CHARACTERS]], bytes: &mut [u8])
    requires { (WRITTEN * length words.now ≤ length bytes.old) × (all_digits words.now ≡ true) }
    ensures { bytes.new ≡ all_bytes words.now ++ drop (WRITTEN * length words.now) bytes.old }
{
    // By index. A zip over the fours that `as_chunks_mut` lends was tried: the goal at the end has for the
    // bytes a list, `given`, of which nothing is known.
    for (k, word) in words.iter().enumerate() {
        let at = WRITTEN * k;
        bytes[at..at + WRITTEN].copy_from_slice(&loaded_bytes(word_of(word)));
    }
}

// Reads digits into lent bytes: all are digits, and just two for each byte; or else no byte changes. A
// yes or a no, since the bytes are lent: an `Option<()>` says no more.
#[tactic(auto, unfolding(crate::specs::Slices::readable, crate::specs::Slices::bytes_after))]
#[inline(always)]
pub fn read_digits(digits: &[u8], bytes: &mut [u8]) -> bool
    ensures answer { result ≡ readable digits.now bytes.old }
    ensures bytes { bytes.new ≡ bytes_after digits.now bytes.old }
{
    if digits.len() != 2 * bytes.len() {
        return false;
    }
    let (words, rest) = digits.as_chunks();
    let tail = tail_word(rest);
    if !(are_words(words) & are_eight(tail)) {
        return false;
    }
    let from = WRITTEN * words.len();
    put_words(words, bytes);
    let n = bytes.len() - from;
    bytes[from..].copy_from_slice(&loaded_bytes(tail)[..n]);
    true
}
