// A study set under way.
ghost use Rattle.std.specs.Prelude.{◌≡◌, nat_abs, ◌-◌, ◌<◌, ◌≤◌};
ghost use Rattle.std.specs.List.{list_all};
ghost use Rattle.difference.specs.Difference.{CAP};
ghost use Rattle.laws.specs.Each.{each_below};
ghost use Rattle.difference.specs.Contribution.{ANALYTES};
ghost use Rattle.unit.specs.Set.{entered_by, entered_of, passes_set};
ghost use Rattle.unit.specs.bounds.Numbers.{SumsBounded, SetBounded, AllBounded, Capped};
ghost use Rattle.study.specs.Study.{SET, added_of, passes_of};

use crate::known::Known;
use difference::constants::ANALYTES;
use difference::contribution::measure;
use difference::difference::Difference;
use study::Sums;

// The sums of each analyte over the set's lines so far.
#[derive(Clone, Copy, Default)]
pub struct Set {
    pub lines: u8,
    pub sums: [Sums; ANALYTES],
}

// An analyte's sums after one more line of a set that is not full. That a difference is at most 999 is asked
// here and by what calls this: a type for it, as `Known`, would be made once, of the four in `take_seen`, and
// read once, here.
fn add(sums: Sums, d: Difference) -> Sums
    requires { SumsBounded (SET - 1) sums × (nat_abs d.tenths ≤ CAP) }
    ensures { result ≡ added_of sums d.tenths }
{
    let size = d.tenths.unsigned_abs();
    Sums {
        s: sums.s + d.tenths,
        q: sums.q + size * size,
        g: sums.g + measure(size),
    }
}

// The sums after one more line.
fn add_all(c: Known, start: [Sums; ANALYTES], d: [Difference; ANALYTES]) -> [Sums; ANALYTES]
    requires { AllBounded (SET - 1) start × Capped d }
    ensures { result ≡ each_below c.constants.analytes (entered_by d) start }
{
    let mut sums = start;
    // By index. A zip over `iter_mut` was tried: with `take` "the borrow checker does not cover" it, "a type
    // argument holds a `&mut`", and over `sums[..n]` the goal at the end has for the sums a list, `given`, of
    // which nothing is known. So was `array::from_fn`: "no proof" was found of a place past the analytes,
    // since what is promised of a place names some state of the closure, and not `start`.
    for a in 0..usize::from(c.constants.analytes) {
        sums[a] = add(sums[a], d[a]);
    }
    sums
}

// One more line of a set that is not full.
pub fn entered(c: Known, s: Set, d: [Difference; ANALYTES]) -> Set
    requires { (s.lines < SET) × SetBounded s × Capped d }
    ensures { result ≡ entered_of c.constants s d }
{
    let old = s.sums;
    let sums = add_all(c, old, d);
    Set {
        lines: s.lines + 1,
        sums,
    }
}

// Whether each of these sums passes.
fn all_pass(sums: &[Sums]) -> bool
    ensures { result ≡ list_all passes_of sums.now }
{
    sums.iter().all(|sums| sums.passes())
}

// Whether a full set passes: each analyte does.
pub fn passes_set(c: Known, s: Set) -> bool
    ensures { result ≡ passes_set c.constants s }
{
    let sums = s.sums;
    all_pass(&sums[..usize::from(c.constants.analytes)])
}
