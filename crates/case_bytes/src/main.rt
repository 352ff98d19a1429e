#![tactic(auto)]

use std::io;

// Bytes 00 and ff, carriage returns and other garbage.
fn main(rt: HostRuntime) -> io::Result<()> {
    terminal::run(&rt, unit::new_unit())
}
