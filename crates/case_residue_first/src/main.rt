#![tactic(auto)]

use std::io;

// Two misidentifications in the first sample, after a missed line that has as many.
fn main(rt: HostRuntime) -> io::Result<()> {
    residue_program::run(&rt)
}
