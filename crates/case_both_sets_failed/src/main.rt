#![tactic(auto)]

use std::io;

// Both sets fail: the unit is closed, and every line that reads is refused 8.
fn main(rt: HostRuntime) -> io::Result<()> {
    terminal::run(&rt, unit::new_unit())
}
