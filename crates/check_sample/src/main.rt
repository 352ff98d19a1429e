#![tactic(auto)]

use std::io;

// The program: answers the lines of standard input on standard output, and then gives the status.
fn main(rt: HostRuntime) -> io::Result<()> {
    terminal::run(&rt, unit::new_unit())
}
