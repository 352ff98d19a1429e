#![tactic(auto)]

use std::io;

// Charts near their limits and over them, two Januaries, and every refusal of a residue line but 12.
fn main(rt: HostRuntime) -> io::Result<()> {
    residue_program::run(&rt)
}
