#![tactic(auto)]

// What a line is to the unit, whatever its format.
mod date;
mod food;
mod residue;

ghost use Rattle.std.specs.Prelude.{◌≡◌};
ghost use Rattle.seen.specs.Sight.{sight_of};

use difference::category::Category;
use difference::constants::ANALYTES;
use difference::difference::Difference;
use food::see_food;
use residue::see_residue;
use rows::refusal::Refusal;

// Study or maintenance, the year and the month number, missed or not, the misidentification count, and
// the analytes' differences. A missed line that came late has differences too, so that no `Option` of them
// could stand for `missed`.
#[derive(Clone, Copy)]
pub struct Seen {
    pub study: bool,
    pub year: u16,
    pub month: u32,
    pub missed: bool,
    pub count: u8,
    pub differences: [Difference; ANALYTES],
}

// What a line is to a unit of the category, or the row by which it does not read.
pub fn see(category: Category, line: &[u8]) -> Result<Seen, Refusal>
    ensures { result ≡ sight_of category line.now }
{
    match category {
        Category::Food => see_food(line),
        Category::Residue(compound) => see_residue(compound, line),
    }
}
