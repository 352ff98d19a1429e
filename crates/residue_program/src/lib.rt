// The tested program for residues, which `check_residue` and its cases run.

#![tactic(auto)]

use std::io;

// The tested program's compound: document 02, request One.
const TESTED: u8 = 4;

// Answers the lines of standard input on standard output, by a new unit of that compound, and then
// gives the status. It lends nothing and hands back the error, if a read or a write failed, and no
// contract can speak of what is read and written.
pub fn run(rt: &(impl Input + Print)) -> io::Result<()> {
    let unit = unit::new_residue_unit(TESTED).unwrap();
    terminal::run(rt, unit)
}
