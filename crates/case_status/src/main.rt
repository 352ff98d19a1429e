#![tactic(auto)]

use std::io;

// Empty lines show the status: at the start, in a set, between samples, on probation, at the end.
fn main(rt: HostRuntime) -> io::Result<()> {
    terminal::run(&rt, unit::new_unit())
}
