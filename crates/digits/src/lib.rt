// Lowercase hexadecimal digits, two to a byte, eight to a word, and numbers of a few bytes, the high
// byte first.

#![tactic(auto)]

mod digit;
mod load;
mod number;
mod read;
mod word;
mod write;

pub use digit::{byte_in, high_digit, low_digit};
pub use number::{Number, eight, four, two};
pub use read::read_digits;
pub use word::read_word;
pub use write::write_digits;
