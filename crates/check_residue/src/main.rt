#![tactic(auto)]

use std::io;

// The program for residues: answers the lines of standard input on standard output, and then gives the
// status.
fn main(rt: HostRuntime) -> io::Result<()> {
    residue_program::run(&rt)
}
