#![tactic(auto)]

use std::io;

// Two charts over at once, on different analytes.
fn main(rt: HostRuntime) -> io::Result<()> {
    terminal::run(&rt, unit::new_unit())
}
