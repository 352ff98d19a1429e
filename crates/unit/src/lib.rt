#![tactic(auto)]

// The check-sample unit: a new one, a line taken, and the status.
mod chart;
mod known;
mod set;
mod shown;
mod stage;
mod stretch;

ghost use Rattle.std.specs.Prelude.{ℕ, List, ◌≡◌, IfOk};
ghost use Rattle.difference.specs.declared.category.Category as K;
ghost use Rattle.rows.specs.Rows.{Answers};
ghost use Rattle.unit.specs.Claim.{ClaimOf};
ghost use Rattle.reply.specs.Event.{event_byte, event_row};
ghost use Rattle.unit.specs.Reached.{Reached, replay};
ghost use Rattle.unit.specs.Status.{status_of};
ghost use Rattle.unit.specs.Take.{empty_unit, new_unit, made_of, taken_of, take_rows};

use counts::{EIGHT, no_counts};
use difference::category::Category;
use field::residue::no_compound;
use known::Known;
use reply::event::Event;
use reply::report::Report;
use reply::stage::Stage;
use rows::refusal::Refusal;
use seen::see;
use set::Set;
use shown::{mask_of, reports};
use stage::{refused, take_seen};
use std::marker::Model;
use stretch::Stretch;

// The misses since admission: the last one's month, 0 where there is none, and whether misses opened
// probation. 0 is before every line's month, so a test asks one thing, `month <= last + APART`, where
// an `Option` would ask `last.is_some_and(|last| month <= last + APART)`.
#[derive(Clone, Copy, Default)]
pub struct Misses {
    last: u32,
    opened: bool,
}

// What a unit holds: its category, its stage, the last accepted line's month, 0 where there is none,
// the study set under way, the stretch, the misses and the latest misidentification counts. Row 10 is
// `x.month < month`, where an `Option` would be `month.is_some_and(|month| x.month < month)`.
#[derive(Clone, Copy)]
pub struct Contents {
    category: Category,
    stage: Stage,
    month: u32,
    set: Set,
    stretch: Stretch,
    misses: Misses,
    latest: [u8; EIGHT],
}

// A unit, which clauses see as what it holds. Some list of lines leads to it from a new one: only
// `new_unit`, `new_residue_unit` and `take` make one.
#[derive(Clone, Copy)]
pub struct Unit {
    contents: Contents,
}

impl Model for Unit {
    ghost use Rattle.unit.specs.declared.Contents.{Contents};

    ghost Value = { Contents };

    ghost use Rattle.unit.specs.Reached.{Reached};

    ghost view = { λ u. u.contents };

    ghost invariant = { λ u. Reached u.contents };

    ghost inverse = { λ c. record { contents = c } };
}

impl Unit {
    // Every unit is one that our calls made: who holds one learns it here.
    pub fn known(&self)
        ensures { Reached self.now }
    {
        let _ = &self.contents;
    }
}

// What taking a line gives: the event, and the unit after it, or what the unit holds.
#[derive(Clone, Copy)]
pub struct Taken<U = Unit> {
    pub event: Event,
    pub unit: U,
}

// What a unit holds that has taken no line.
fn empty_unit(category: Category, stage: Stage) -> Contents
    ensures { result ≡ empty_unit category stage }
{
    Contents {
        category,
        stage,
        month: 0,
        set: Set::default(),
        stretch: Stretch::default(),
        misses: Misses::default(),
        latest: no_counts(),
    }
}

// A new unit of food chemistry.
pub fn new_unit() -> Unit
    ensures whole { result ≡ new_unit }
    ensures reached { Reached result }
{
    let contents = empty_unit(Category::Food, Stage::Applicant);
    Unit { contents }
}

// A new unit for residues of a compound, or the refusal of a number that stands for no compound.
// `whole`: the answer is the definition's. `reached`: a unit that is made is one that our calls made;
// beside a refusal there is none.
pub fn new_residue_unit(compound: u8) -> Result<Unit, Refusal>
    ensures whole { result ≡ made_of compound }
    ensures reached { IfOk result Reached }
{
    if no_compound(compound) {
        return Err(Refusal::Compound);
    }
    let contents = empty_unit(Category::Residue(compound), Stage::Accredited);
    Ok(Unit { contents })
}

// What a line does to what a unit holds.
fn take_line(contents: Contents, line: &[u8]) -> Taken<Contents>
    requires { Reached contents }
    ensures { result ≡ taken_of contents line.now }
{
    let category = contents.category;
    match see(category, line) {
        Ok(seen) => take_seen(Known::of(category), contents, seen),
        Err(refusal) => refused(contents, refusal),
    }
}

// Takes one line, however long or garbled: the event, and the unit after it.
// `whole`: both are the definition's. `reached`: the unit is one that our calls made. `kept`: a
// refusal hands the unit back as it was. `first`: a line is refused exactly where a row fits, with the
// number of the first that does.
pub fn take(unit: Unit, line: &[u8]) -> Taken
    ensures whole { result ≡ taken_of unit line.now }
    ensures reached { Reached result.unit }
    ensures kept { event_byte result.event ≡ 0 → result.unit ≡ unit }
    ensures first { Answers (take_rows unit line.now) (event_row result.event) }
{
    let after = take_line(unit.contents, line);
    Taken {
        event: after.event,
        unit: Unit {
            contents: after.unit,
        },
    }
}

// The status of a unit. Whatever category it is of and whatever list of lines led to it, nobody with
// that list can find a ground for probation that the status misses, or overturn one that it names.
pub fn status(unit: Unit) -> Report
    ensures whole { result ≡ status_of unit }
    ensures claim { (k : K.Category) (ls : List (List ℕ)) → replay k ls ≡ unit → ClaimOf k ls result }
{
    let contents = unit.contents;
    let category = contents.category;
    let stretch = contents.stretch;
    let misses = contents.misses;
    let charts = reports(Known::of(category), stretch);
    Report {
        stage: contents.stage,
        samples: stretch.samples,
        mask: mask_of(charts),
        misses: misses.opened,
        charts,
    }
}
