#![tactic(auto)]

use std::io;

// Misses 12 months apart open nothing, 11 months apart probation.
fn main(rt: HostRuntime) -> io::Result<()> {
    terminal::run(&rt, unit::new_unit())
}
