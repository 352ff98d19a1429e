#![tactic(auto)]

use std::io;

// A year that ends accredited close to the fat limit: chart 8 at its limit in November is not over.
fn main(rt: HostRuntime) -> io::Result<()> {
    terminal::run(&rt, unit::new_unit())
}
