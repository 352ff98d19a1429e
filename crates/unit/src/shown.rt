// What the status shows of the charts.
ghost use Rattle.std.specs.Prelude.{◌≡◌};
ghost use Rattle.unit.specs.Status.{reports_of, mask_of};

use crate::known::Known;
use crate::stretch::{Stretch, is_over};
use difference::constants::{CHARTS, EACH};
use reply::report::ChartReport;

// The charts by number. Of one that the category does not have nothing is shown.
pub fn reports(c: Known, s: Stretch) -> [ChartReport; CHARTS]
    ensures { result ≡ reports_of c.constants s }
{
    let charts = s.charts;
    let last = s.samples;
    let mut reports = [ChartReport::default(); CHARTS];
    // By index. A zip of the numbers with `iter_mut().zip(charts)` was tried: "the borrow checker does not
    // cover" it, "a type argument holds a `&mut`".
    for n in 0..EACH * c.constants.analytes {
        let i = usize::from(n);
        let chart = charts[i];
        reports[i] = ChartReport {
            over: is_over(c, n, chart),
            first: chart.first,
            last,
            value: chart.value,
        };
    }
    reports
}

// The mask of the charts over: bit = chart number.
pub fn mask_of(reports: [ChartReport; CHARTS]) -> u16
    ensures { result ≡ mask_of reports }
{
    let mut mask = 0;
    for report in reports.iter().rev() {
        mask = u16::from(report.over) + 2 * mask;
    }
    mask
}
