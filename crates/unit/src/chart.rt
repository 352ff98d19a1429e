// A chart and how a sample moves it. Document 01, "Stretch and run".
ghost use Rattle.std.specs.Prelude.{◌≡◌, ◌<◌};
ghost use Rattle.difference.specs.bounds.Numbers.{Moderate};
ghost use Rattle.grounds.specs.Chart.{next_value, next_first};
ghost use Rattle.unit.specs.Charts.{chart_of};
ghost use Rattle.unit.specs.Stretch.{FULL};
ghost use Rattle.unit.specs.bounds.Numbers.{Roomy};

// A chart, the regulation's CUSUM: its value, and the first sample of the run shown.
#[derive(Clone, Copy, Default)]
pub struct Chart {
    pub value: i32,
    pub first: u16,
}

// The value after a sample that contributes `x`, where `before` samples of the stretch stand before
// it. The first sets the chart to its contribution, negative or not; each later one adds it, and a sum
// below 0 becomes 0.
fn next_value(before: u16, value: i32, x: i32) -> i32
    requires { Roomy value × Moderate x }
    ensures { result ≡ next_value before value x }
{
    if before == 0 { x } else { (value + x).max(0) }
}

// The first sample of the run shown after this sample. That `before` has room for one more is asked here, in
// `step` and by what moves the charts: a type for it would be made once and read once.
fn next_first(before: u16, value: i32, first: u16) -> u16
    requires { before < FULL }
    ensures { result ≡ next_first before value first }
{
    if before < 2 {
        1
    } else if value <= 0 {
        before + 1
    } else {
        first
    }
}

// A chart after a sample.
pub fn step(chart: Chart, before: u16, x: i32) -> Chart
    requires { (before < FULL) × Roomy chart.value × Moderate x }
    ensures { result ≡ chart_of chart before x }
{
    Chart {
        value: next_value(before, chart.value, x),
        first: next_first(before, chart.value, chart.first),
    }
}
