#![tactic(auto)]

use std::io;

// A stretch of 999 samples, the refusal after it, and a new year.
fn main(rt: HostRuntime) -> io::Result<()> {
    terminal::run(&rt, unit::new_unit())
}
