#![tactic(auto)]

// Food chemistry's lines, read and written back: `food_line` run on lines whose answers were worked out
// independently.
use difference::category::Category;
use std::io;

fn main(rt: HostRuntime) -> io::Result<()> {
    lines::run(&rt, Category::Food)
}
