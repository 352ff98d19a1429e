// A line of residues as the unit sees it.
ghost use Rattle.std.specs.Prelude.{◌≡◌};
ghost use Rattle.seen.specs.Residue.{difference_for, seen_of};
ghost use Rattle.seen.specs.Rules.{residues_of};
ghost use Rattle.seen.specs.Sight.{sight_in};

use crate::Seen;
use crate::date::{is_late, month_number};
use difference::difference::Difference;
use difference::residue::residue_difference;
use residue_line::record::Record;
use rows::refusal::Refusal;

// The difference of a result, 0 where it is lost.
fn difference(compound: u8, comparison: i16, res: Option<i16>) -> Difference
    ensures { result ≡ difference_for compound comparison res }
{
    res.map_or(Difference::default(), |log| {
        residue_difference(compound, comparison, log)
    })
}

// What a record is to the unit.
fn see_record(r: Record) -> Seen
    ensures { result ≡ seen_of r }
{
    let none = Difference::default();
    let differences = [
        difference(r.compound, r.comparison, r.result),
        none,
        none,
        none,
    ];
    Seen {
        study: false,
        year: r.year,
        month: month_number(r.year, r.month),
        missed: r.result.is_none() | is_late(r.days),
        count: r.count,
        differences,
    }
}

pub fn see_residue(compound: u8, line: &[u8]) -> Result<Seen, Refusal>
    ensures { result ≡ sight_in (residues_of compound) line.now }
{
    let answer = residue_line::read(compound, line);
    let Ok(record) = answer else {
        return answer.map(see_record);
    };
    Ok(see_record(record))
}
