#![tactic(auto)]

use std::io;

// Probation by charts with a run from sample 3; one from sample 2 would sum higher and is none.
fn main(rt: HostRuntime) -> io::Result<()> {
    terminal::run(&rt, unit::new_unit())
}
