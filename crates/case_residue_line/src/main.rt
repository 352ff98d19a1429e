#![tactic(auto)]

// Residue lines of compound 4, read and written back: `residue_line` run on lines whose answers were
// worked out independently.
use difference::category::Category;
use std::io;

fn main(rt: HostRuntime) -> io::Result<()> {
    lines::run(&rt, Category::Residue(4))
}
