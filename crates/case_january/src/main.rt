#![tactic(auto)]

use std::io;

// A chart is not carried into January.
fn main(rt: HostRuntime) -> io::Result<()> {
    terminal::run(&rt, unit::new_unit())
}
