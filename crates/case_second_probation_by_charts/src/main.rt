#![tactic(auto)]

use std::io;

// Admission after probation by misses clears the grounds, and charts open probation again.
fn main(rt: HostRuntime) -> io::Result<()> {
    terminal::run(&rt, unit::new_unit())
}
