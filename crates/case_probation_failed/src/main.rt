#![tactic(auto)]

use std::io;

// A set failed on probation closes the unit, and the grounds are still shown.
fn main(rt: HostRuntime) -> io::Result<()> {
    terminal::run(&rt, unit::new_unit())
}
