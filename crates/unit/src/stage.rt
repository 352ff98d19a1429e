// What a line does to a unit: rows 8 to 12, then a study line, a missed line or a sample.
ghost use Rattle.std.specs.Prelude.{◌≡◌, true, ◌≤◌, eqb};
ghost use Rattle.grounds.specs.Earlier.{again, is_broken};
ghost use Rattle.reply.specs.declared.stage.Stage.TheVariants.{Probation};
ghost use Rattle.rows.specs.Rows.{first_row};
ghost use Rattle.study.specs.Study.{SET};
ghost use Rattle.unit.specs.Stretch.{any_over};
ghost use Rattle.unit.specs.Take.{closed_in, unit_rows, refused_of, missed_by, sample_by, failed_stage, judged_by, study_by, taken_seen};
ghost use Rattle.unit.specs.bounds.Numbers.{Bounded, GoodSeen, LAST_MONTH};

use crate::known::Known;
use crate::set::{Set, entered, passes_set};
use crate::stretch::{Stretch, any_over, sampled};
use crate::{Contents, Misses, Taken, empty_unit};
use counts::{EIGHT, latest_of, too_many};
use difference::category::Category;
use reply::event::Event;
use reply::stage::Stage;
use rows::refusal::Refusal;
use rows::{Row, first_of_by};
use seen::Seen;
use study::LINES;

// How many samples a stretch holds.
const FULL: u16 = 999;
// Two misses at most so many months apart open probation.
const APART: u32 = 11;

// Row 8: stage 4; of residues every stage but 2, for they have no sets and so no way back.
fn is_closed(category: Category, stage: Stage) -> bool
    ensures { result ≡ closed_in category stage }
{
    match category {
        Category::Food => stage == Stage::Closed,
        Category::Residue(_) => stage != Stage::Accredited,
    }
}

// The first of rows 8 to 12 that fits.
fn first_row(u: Contents, x: Seen) -> Result<(), Refusal>
    ensures { result ≡ first_row (unit_rows u x) }
{
    let stretch = u.stretch;
    let category = u.category;
    let accredited = u.stage == Stage::Accredited;
    let stage = x.study == accredited;
    let full = (!x.study & !x.missed) & ((x.year == stretch.year) & (FULL <= stretch.samples));
    first_of_by(&[
        Row::new(Refusal::Closed, is_closed(category, u.stage)),
        Row::new(Refusal::Stage, stage),
        Row::new(Refusal::Backdated, x.month < u.month),
        Row::new(Refusal::Gap, x.study & x.missed),
        Row::new(Refusal::Full, full),
    ])
}

// A refusal hands the unit back as it was.
pub fn refused(u: Contents, refusal: Refusal) -> Taken<Contents>
    ensures { result ≡ refused_of u refusal }
{
    Taken {
        event: Event::Refused(refusal),
        unit: u,
    }
}

// The unit on probation.
fn on_probation(unit: Contents) -> Contents
    ensures { result ≡ record unit { stage = Probation } }
{
    Contents {
        stage: Stage::Probation,
        ..unit
    }
}

// What an accepted line does goes by the category's constants, the unit and the line's month. A method has
// the same three, `u.study_line(c, x.month, set)`; a struct of them would be made for one call.

// A missed line: at most so many months after an earlier miss since admission it opens probation.
fn missed_line(u: Contents, month: u32) -> Taken<Contents>
    requires { u.misses.last ≤ LAST_MONTH }
    ensures { result ≡ missed_by (again u.misses.last month) u month }
{
    if month <= u.misses.last + APART {
        let misses = Misses {
            last: month,
            opened: true,
        };
        return Taken {
            event: Event::ByMisses,
            unit: on_probation(Contents { month, misses, ..u }),
        };
    }
    let misses = Misses {
        last: month,
        ..u.misses
    };
    Taken {
        event: Event::Missed,
        unit: Contents { month, misses, ..u },
    }
}

// A sample, which leaves this stretch and these counts. Misidentifications come before charts.
fn sample_line(
    c: Known,
    u: Contents,
    month: u32,
    stretch: Stretch,
    latest: [u8; EIGHT],
) -> Taken<Contents>
    ensures { result ≡ sample_by (is_broken latest) (any_over c.constants stretch.charts) u month stretch latest }
{
    let unit = Contents {
        month,
        stretch,
        latest,
        ..u
    };
    if too_many(latest) {
        return Taken {
            event: Event::ByMisidentifications,
            unit: on_probation(unit),
        };
    }
    if any_over(c, stretch.charts) {
        return Taken {
            event: Event::ByCharts,
            unit: on_probation(unit),
        };
    }
    Taken {
        event: Event::Sample,
        unit,
    }
}

// The stage after a failed set.
fn after_failure(stage: Stage) -> Stage
    ensures { result ≡ failed_stage stage }
{
    if stage == Stage::Applicant {
        Stage::Second
    } else {
        Stage::Closed
    }
}

// A set that was judged. Passed is admission, which clears charts, grounds and misses, and the latest
// counts.
fn judged(u: Contents, month: u32, passed: bool) -> Taken<Contents>
    ensures { result ≡ judged_by passed u month }
{
    if passed {
        return Taken {
            event: Event::Passed,
            unit: Contents {
                month,
                ..empty_unit(u.category, Stage::Accredited)
            },
        };
    }
    Taken {
        event: Event::Failed,
        unit: Contents {
            stage: after_failure(u.stage),
            month,
            set: Set::default(),
            ..u
        },
    }
}

// A study line, which leaves this set.
fn study_line(c: Known, u: Contents, month: u32, set: Set) -> Taken<Contents>
    ensures { result ≡ study_by (eqb set.lines SET) c.constants u month set }
{
    if set.lines == LINES {
        return judged(u, month, passes_set(c, set));
    }
    Taken {
        event: Event::UnderWay(set.lines),
        unit: Contents { month, set, ..u },
    }
}

// What a line that reads does, by the constants of its category.
pub fn take_seen(c: Known, u: Contents, x: Seen) -> Taken<Contents>
    requires { Bounded c.constants u × GoodSeen x }
    ensures { result ≡ taken_seen c.constants u x }
{
    if let Err(refusal) = first_row(u, x) {
        return refused(u, refusal);
    }
    let d = x.differences;
    if x.study {
        return study_line(c, u, x.month, entered(c, u.set, d));
    }
    if x.missed {
        return missed_line(u, x.month);
    }
    let before = u.latest;
    sample_line(
        c,
        u,
        x.month,
        sampled(c, u.stretch, x.year, d),
        latest_of(x.count, before),
    )
}
