// Eight characters as a word, as it is loaded: the first lowest; and a tail filled up to eight.

ghost use Rattle.std.specs.Prelude.{◌≡◌, ◌≤◌, length};
ghost use Rattle.digits.specs.Word.{CHARACTERS};
ghost use Rattle.digits.specs.bounds.Loaded.{loaded_in, filled};

use crate::number::eight;

// How many characters a word has.
pub const CHARACTERS: usize = 8;

// The word of eight characters. Gathered in this order, they are one load.
#[tactic(auto, using(crate::proofs::LoadLaws::loaded))]
pub fn word_of(characters: &[u8; CHARACTERS]) -> u64
    ensures { loaded_in result ≡ characters.now }
{
    let c = characters;
    eight(c[7], c[6], c[5], c[4], c[3], c[2], c[1], c[0])
}

// The characters of a tail, filled up with the digit 0.
pub fn tail_word(tail: &[u8]) -> u64
    requires { length tail.now ≤ CHARACTERS }
    ensures { loaded_in result ≡ filled tail.now }
{
    let mut characters = [b'0'; CHARACTERS];
    characters[..tail.len()].copy_from_slice(tail);
    word_of(&characters)
}
