#![tactic(auto)]

use std::io;

// A year of 999 samples, misses 12 and 11 months apart, and what follows.
fn main(rt: HostRuntime) -> io::Result<()> {
    residue_program::run(&rt)
}
