#![tactic(auto)]

use std::io;

// Lines of 67, 68, 69 and 100,000 bytes.
fn main(rt: HostRuntime) -> io::Result<()> {
    terminal::run(&rt, unit::new_unit())
}
