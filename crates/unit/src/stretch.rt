// The stretch under way: its year, its samples and the charts.
ghost use Rattle.std.specs.Prelude.{◌≡◌, ◌<◌, ◌≤◌};
ghost use Rattle.laws.specs.Each.{each_below};
ghost use Rattle.difference.specs.Contribution.{ANALYTES};
ghost use Rattle.unit.specs.Charts.{is_over, moved_by, charts_in};
ghost use Rattle.unit.specs.Stretch.{earlier, sampled_of, any_over, FULL};
ghost use Rattle.unit.specs.bounds.Numbers.{StretchBounded, ChartsRoomy};

use crate::chart::{Chart, step};
use crate::known::Known;
use difference::constants::{ANALYTES, CHARTS, EACH};
use difference::difference::Difference;

// The charts by number: 4 × analyte + 0 P, 1 N, 2 V, 3 D. With no sample since admission the year is 0,
// which no line has: a line is of this year where `year == s.year`, an `Option` no plainer.
#[derive(Clone, Copy, Default)]
pub struct Stretch {
    pub year: u16,
    pub samples: u16,
    pub charts: [Chart; CHARTS],
}

// The samples of this year's stretch before a sample of the year.
fn samples_before(s: Stretch, year: u16) -> u16
    ensures { result ≡ earlier s year }
{
    if year == s.year { s.samples } else { 0 }
}

// The charts after a sample with these differences, where `before` samples stand before it.
fn move_charts(
    c: Known,
    start: [Chart; CHARTS],
    before: u16,
    d: [Difference; ANALYTES],
) -> [Chart; CHARTS]
    requires { (before < FULL) × ChartsRoomy (charts_in c.constants) start }
    ensures { result ≡ each_below (charts_in c.constants) (moved_by c.constants before d) start }
{
    let mut charts = start;
    // By index. A zip over the fours that `as_chunks_mut` lends was tried: the goal at the end has for the
    // charts a list, `given`, of which nothing is known.
    for a in 0..usize::from(c.constants.analytes) {
        let x = c.constants.contribute(d[a]);
        for (k, part) in [x.p, x.n, x.v, x.d].iter().enumerate() {
            let n = usize::from(EACH) * a + k;
            charts[n] = step(charts[n], before, *part);
        }
    }
    charts
}

// The stretch after a sample, which opens a new one where the year is another.
pub fn sampled(c: Known, s: Stretch, year: u16, d: [Difference; ANALYTES]) -> Stretch
    requires { (earlier s year < FULL) × StretchBounded c.constants s }
    ensures { result ≡ sampled_of c.constants s year d }
{
    let before = samples_before(s, year);
    let old = s.charts;
    let charts = move_charts(c, old, before, d);
    Stretch {
        year,
        samples: before + 1,
        charts,
    }
}

// Whether a chart is over: its value is above its limit. The number is the chart's, or its place among its
// analyte's four. A number and no enum: document 01 numbers the charts, and the numbers come from places in a
// list.
pub fn is_over(c: Known, n: u8, chart: Chart) -> bool
    ensures { result ≡ is_over c.constants n chart }
{
    chart.value > c.constants.limit(n % EACH)
}

// The charts of an analyte, as a length.
const FOUR: usize = EACH as usize;

// Whether any chart is over.
pub fn any_over(c: Known, charts: [Chart; CHARTS]) -> bool
    ensures { result ≡ any_over c.constants charts }
{
    let mut over = false;
    let (fours, _) = charts.as_chunks::<FOUR>();
    for four in &fours[..usize::from(c.constants.analytes)] {
        for (k, &chart) in four.iter().enumerate() {
            over |= is_over(c, k as u8, chart);
        }
    }
    over
}
