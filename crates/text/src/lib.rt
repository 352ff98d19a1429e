#![tactic(auto)]

// The text of events and reports, put into a buffer.
pub mod answer;
mod line;
pub mod report;
mod room;

pub const NEWLINE: u8 = 10;
