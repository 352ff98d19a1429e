#![tactic(auto)]

use std::io;

// One misidentification in each of two neighbouring samples, a missed line and refused ones between them, and what follows.
fn main(rt: HostRuntime) -> io::Result<()> {
    residue_program::run(&rt)
}
