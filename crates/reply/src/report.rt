// What the status shows.
use crate::stage::Stage;
use difference::constants::CHARTS;

// A chart: whether it is over, and the run shown with its sum. The definition gives the run of a chart that is
// not over too, so that an `Option` of it would promise less.
#[derive(Clone, Copy, Default)]
pub struct ChartReport {
    pub over: bool,
    pub first: u16,
    pub last: u16,
    pub value: i32,
}

// The stage, the samples in the stretch, the mask of charts over, whether misses opened probation,
// and each chart by its number. `S` stands for the stage: its name, as a unit says it, or its number.
#[derive(Clone, Copy)]
pub struct Report<S = Stage> {
    pub stage: S,
    pub samples: u16,
    pub mask: u16,
    pub misses: bool,
    pub charts: [ChartReport; CHARTS],
}
