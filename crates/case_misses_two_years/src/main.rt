#![tactic(auto)]

use std::io;

// Probation by misses in two calendar years.
fn main(rt: HostRuntime) -> io::Result<()> {
    terminal::run(&rt, unit::new_unit())
}
