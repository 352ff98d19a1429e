#![tactic(auto)]

use std::io;

// An unended last line counts.
fn main(rt: HostRuntime) -> io::Result<()> {
    terminal::run(&rt, unit::new_unit())
}
