#![tactic(auto)]

// What a unit hands back: the event of a line, and the status. Types alone.
pub mod event;
pub mod report;
pub mod stage;
