// What a line did.
use rows::refusal::Refusal;

// `R` stands for the row of a refusal: its name, as a unit says it, or its number.
#[derive(Clone, Copy)]
pub enum Event<R = Refusal> {
    // Refused, by the row.
    Refused(R),
    // A sample.
    Sample,
    // A missed line.
    Missed,
    // A study set under way, with its lines so far.
    UnderWay(u8),
    // A study set passed.
    Passed,
    // A study set failed.
    Failed,
    // Probation by charts.
    ByCharts,
    // Probation by misses.
    ByMisses,
    // Probation by misidentifications.
    ByMisidentifications,
}
