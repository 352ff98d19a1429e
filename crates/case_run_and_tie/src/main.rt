#![tactic(auto)]

use std::io;

// Probation by charts: two runs tie at 53, and the shortest, samples 5 to 7, is shown.
fn main(rt: HostRuntime) -> io::Result<()> {
    terminal::run(&rt, unit::new_unit())
}
