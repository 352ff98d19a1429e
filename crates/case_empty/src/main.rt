#![tactic(auto)]

use std::io;

// An empty input: the status alone.
fn main(rt: HostRuntime) -> io::Result<()> {
    terminal::run(&rt, unit::new_unit())
}
