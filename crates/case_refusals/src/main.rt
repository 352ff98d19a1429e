#![tactic(auto)]

use std::io;

// Each refusal from 1 to 12 once, with an accepted line after it showing that nothing moved.
fn main(rt: HostRuntime) -> io::Result<()> {
    terminal::run(&rt, unit::new_unit())
}
