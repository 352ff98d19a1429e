#![tactic(auto)]

use std::io;

// Empty lines show the status: at the start, between samples, after a miss, on probation.
fn main(rt: HostRuntime) -> io::Result<()> {
    residue_program::run(&rt)
}
