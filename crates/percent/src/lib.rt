// A percent in binary32: its bit pattern, whether it is accepted, and its hundredths.

#![tactic(auto)]

mod pattern;
mod rounding;

pub use pattern::{bits_of, is_accepted};
pub use rounding::hundredths_of;
