// A line of food chemistry as the unit sees it.
ghost use Rattle.std.specs.Prelude.{ℕ, List, ◌≡◌, Ok};
ghost use Rattle.food_line.specs.Amount.{amount_of};
ghost use Rattle.food_line.specs.Read.{read_of};
ghost use Rattle.seen.specs.Food.{is_lost, missed, hundredths_in, answer_for, by_analyte, seen_of, seen_of_any};
ghost use Rattle.seen.specs.Rules.{food_chemistry};
ghost use Rattle.seen.specs.Sight.{sight_in};

use crate::Seen;
use crate::date::{is_late, month_number};
use difference::analyte::Analyte;
use difference::constants::ANALYTES;
use difference::difference::Difference;
use difference::standardize::standardize_for;
use field::STUDY;
use food_line::record::{Reading, Record};
use rows::refusal::Refusal;

// Whether a reading is lost.
fn is_lost(reading: Reading) -> bool
    ensures { result ≡ is_lost reading }
{
    matches!(reading, Reading::Lost)
}

// Whether a line of the record is missed: a reading is lost, or the result came late. By name: an array
// and `any` would first name the four and then ask.
fn is_missed(r: Record) -> bool
    ensures { result ≡ missed r }
{
    is_lost(r.readings.moisture)
        | is_lost(r.readings.protein)
        | is_lost(r.readings.fat)
        | is_lost(r.readings.salt)
        | is_late(r.days)
}

// A reading in hundredths, 0 where it has none.
fn hundredths_in(reading: Reading) -> u16
    ensures { result ≡ hundredths_in (amount_of reading) }
{
    food_line::hundredths(reading).unwrap_or(0)
}

// The difference of a reading, 0 where `standardize_for` refuses.
fn difference(product: u8, analyte: Analyte, mean: u16, reading: Reading) -> Difference
    ensures { result ≡ answer_for product analyte mean reading }
{
    match standardize_for(product, analyte, mean, hundredths_in(reading)) {
        Ok(figures) => figures.difference,
        Err(_) => Difference::default(),
    }
}

// The differences of the four analytes.
fn find_differences(r: Record) -> [Difference; ANALYTES]
    ensures { result ≡ by_analyte answer_for r }
{
    let Record {
        product,
        means,
        readings,
        ..
    } = r;
    [
        difference(
            product,
            Analyte::Moisture,
            means.moisture,
            readings.moisture,
        ),
        difference(product, Analyte::Protein, means.protein, readings.protein),
        difference(product, Analyte::Fat, means.fat, readings.fat),
        difference(product, Analyte::Salt, means.salt, readings.salt),
    ]
}

// What a record is to the unit.
// `whole`: for every record. `read`: for a record that was read, no difference is refused, and each is
// document 01's.
fn see_record(r: Record) -> Seen
    ensures whole { result ≡ seen_of_any r }
    ensures read { (line : List ℕ) → read_of line ≡ Ok r → result ≡ seen_of r }
{
    let differences = find_differences(r);
    Seen {
        study: r.kind == STUDY,
        year: r.year,
        month: month_number(r.year, r.month),
        missed: is_missed(r),
        count: 0,
        differences,
    }
}

// The answer is opened by let .. else, as document 01 has it; a refusal goes out early, as `map` leaves it.
// `see_residue` is the same for the other format: one function for both would take `read` and
// `see_record` as closures, two names for two.
pub fn see_food(line: &[u8]) -> Result<Seen, Refusal>
    ensures { result ≡ sight_in food_chemistry line.now }
{
    let answer = food_line::read(line);
    let Ok(record) = answer else {
        return answer.map(see_record);
    };
    Ok(see_record(record))
}
