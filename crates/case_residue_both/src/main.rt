#![tactic(auto)]

use std::io;

// A sample that breaks a window and leaves a chart over its limit.
fn main(rt: HostRuntime) -> io::Result<()> {
    residue_program::run(&rt)
}
