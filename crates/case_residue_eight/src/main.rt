#![tactic(auto)]

use std::io;

// Three misidentifications whose last comes eight samples after the first, twice, then seven, across a January.
fn main(rt: HostRuntime) -> io::Result<()> {
    residue_program::run(&rt)
}
