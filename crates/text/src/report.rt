// The status line, and a line for each chart that is over.

ghost use Rattle.std.specs.Prelude.{◌≡◌, ◌≤◌, length};
ghost use Rattle.difference.specs.Contribution.{CHARTS};
ghost use Rattle.text.specs.Text.{stage_bytes_by, run_bytes, run_texts, status_text_by, status_text};
ghost use Rattle.text.specs.bounds.Room.{RUNS, STATUS as STATUS_ROOM};
ghost use Rattle.text.specs.Buffer.{with_text, put_text, put_place};

use crate::line::put_line;
use crate::room::has_room;
use difference::constants::CHARTS;
use reply::report::{ChartReport, Report};
use rows::numbered::Numbered;

// How many bytes the status line and a chart's line have: two digits to a byte, and a newline.
const STAGE: usize = 13;

const RUN: usize = 19;

// How many bytes the status has at most.
pub const STATUS: usize = STAGE + CHARTS * RUN;

fn stage_bytes<S: Numbered>(report: Report<S>) -> [u8; 6]
    ensures { result ≡ stage_bytes_by S.number report }
{
    let samples = report.samples.to_be_bytes();
    let mask = report.mask.to_be_bytes();
    [
        report.stage.number(),
        samples[0],
        samples[1],
        mask[0],
        mask[1],
        u8::from(report.misses),
    ]
}

// A chart's number is a byte of its line, and no enum: it goes from the place in the list to the line.
fn run_bytes(chart: u8, run: ChartReport) -> [u8; 9]
    ensures { result ≡ run_bytes chart run }
{
    let first = run.first.to_be_bytes();
    let last = run.last.to_be_bytes();
    let value = run.value.to_be_bytes();
    [
        chart, first[0], first[1], last[0], last[1], value[0], value[1], value[2], value[3],
    ]
}

// Puts a line for each set bit at the start of the room, lowest first, and gives the place after them.
fn put_charts(mask: u16, charts: [ChartReport; CHARTS], room: &mut [u8]) -> usize
    requires { RUNS ≤ length room.old }
    ensures place { result ≡ length (run_texts mask charts CHARTS) }
    ensures text { room.new ≡ with_text room.old 0 (run_texts mask charts CHARTS) }
{
    let mut end = 0;
    for (chart, &run) in charts.iter().enumerate() {
        if (mask >> chart) % 2 == 1 {
            end += put_line(&run_bytes(chart as u8, run), &mut room[end..]);
        }
    }
    end
}

// Puts the status into the buffer, from `at` on, as `put_answer_by` does, and gives the place after it. Where there might be no
// room for it nothing changes.
pub fn put_status_by<S: Numbered>(report: Report<S>, buffer: &mut [u8], at: usize) -> usize
    ensures place { result ≡ put_place STATUS_ROOM buffer.old at (status_text_by S.number report) }
    ensures text { buffer.new ≡ put_text STATUS_ROOM buffer.old at (status_text_by S.number report) }
{
    if has_room(buffer.len(), at, STATUS) {
        let room = &mut buffer[at..];
        let end = put_line(&stage_bytes(report), room);
        at + end + put_charts(report.mask, report.charts, &mut room[end..])
    } else {
        at
    }
}

// The same of a report that names the stage, as a unit says it, so that a call need not say what stands for a stage.
pub fn put_status(report: Report, buffer: &mut [u8], at: usize) -> usize
    ensures place { result ≡ put_place STATUS_ROOM buffer.old at (status_text report) }
    ensures text { buffer.new ≡ put_text STATUS_ROOM buffer.old at (status_text report) }
{
    put_status_by(report, buffer, at)
}

#[cfg(test)]
mod tests {
    use super::*;
    use reply::stage::Stage;

    // A caller's own word for a stage, which says of itself alone what it stands for.
    #[derive(Clone, Copy)]
    struct Word;

    impl From<Word> for Stage {
        fn from(_: Word) -> Stage {
            Stage::Accredited
        }
    }

    // The status line, and a line for the chart that is over.
    #[test]
    fn one_chart_over(rt: HostRuntime) {
        let mut charts = [ChartReport::default(); CHARTS];
        charts[1] = ChartReport {
            over: true,
            first: 3,
            last: 258,
            value: -2,
        };
        let report = Report {
            stage: Word.into(),
            samples: 258,
            mask: 2,
            misses: true,
            charts,
        };
        let mut buffer = [b'-'; STATUS + 1];
        assert_eq!(rt; put_status(report, &mut buffer, 1), 33);
        assert!(rt; buffer.starts_with(b"-020102000201\n0100030102fffffffe\n-"));
    }

    // The longest status is asked for.
    #[test]
    fn room_for_all(rt: HostRuntime) {
        let report = Report {
            stage: Stage::Closed,
            samples: 0,
            mask: 0,
            misses: false,
            charts: [ChartReport::default(); CHARTS],
        };
        let mut buffer = [b'-'; STATUS - 1];
        assert_eq!(rt; put_status(report, &mut buffer, 0), 0);
        assert!(rt; buffer.iter().all(|&byte| byte == b'-'));
    }
}
