// An event, as the answer to a line.

ghost use Rattle.std.specs.Prelude.{◌≡◌};
ghost use Rattle.text.specs.Text.{event_bytes_by, answer_text_by, answer_text};
ghost use Rattle.text.specs.bounds.Room.{ANSWER as ANSWER_ROOM};
ghost use Rattle.text.specs.Buffer.{put_text, put_place};

use crate::line::put_line;
use crate::room::has_room;
use reply::event::Event;
use rows::numbered::Numbered;

// How many bytes an event has as an answer: two digits to a byte, and a newline.
pub const ANSWER: usize = 5;

// The event byte and the number byte: the number is 0 but where the event has one.
fn bytes_of<R: Numbered>(event: Event<R>) -> [u8; 2]
    ensures { result ≡ event_bytes_by R.number event }
{
    match event {
        Event::Refused(refusal) => [0, refusal.number()],
        Event::Sample => [1, 0],
        Event::Missed => [2, 0],
        Event::UnderWay(n) => [3, n],
        Event::Passed => [4, 0],
        Event::Failed => [5, 0],
        Event::ByCharts => [6, 0],
        Event::ByMisses => [7, 0],
        Event::ByMisidentifications => [8, 0],
    }
}

// Puts an event into the buffer, from `at` on, and gives the place after it. Where there
// is no room for it nothing changes, and `at` is handed back: the place after what was put in either case, which
// of an `Option` takes an `unwrap_or`. Buffer and place are two, since all of the buffer is promised.
pub fn put_answer_by<R: Numbered>(event: Event<R>, buffer: &mut [u8], at: usize) -> usize
    ensures place { result ≡ put_place ANSWER_ROOM buffer.old at (answer_text_by R.number event) }
    ensures text { buffer.new ≡ put_text ANSWER_ROOM buffer.old at (answer_text_by R.number event) }
{
    if has_room(buffer.len(), at, ANSWER) {
        at + put_line(&bytes_of(event), &mut buffer[at..])
    } else {
        at
    }
}

// The same of an event that names the row, as a unit says it, so that a call need not say what stands for a row.
pub fn put_answer(event: Event, buffer: &mut [u8], at: usize) -> usize
    ensures place { result ≡ put_place ANSWER_ROOM buffer.old at (answer_text event) }
    ensures text { buffer.new ≡ put_text ANSWER_ROOM buffer.old at (answer_text event) }
{
    put_answer_by(event, buffer, at)
}

#[cfg(test)]
mod tests {
    use super::*;
    use rows::refusal::Refusal;

    // Nothing says here what stands for a row.
    #[test]
    fn sample(rt: HostRuntime) {
        let mut buffer = [b'-'; 7];
        assert_eq!(rt; put_answer(Event::Sample, &mut buffer, 1), 6);
        assert_eq!(rt; &buffer, b"-0100\n-");
    }

    #[test]
    fn refused(rt: HostRuntime) {
        let mut buffer = [b'-'; 5];
        assert_eq!(rt;
            put_answer(Event::Refused(Refusal::Full), &mut buffer, 0),
            5
        );
        assert_eq!(rt; &buffer, b"000c\n");
    }

    #[test]
    fn no_room(rt: HostRuntime) {
        let mut buffer = [b'-'; 5];
        assert_eq!(rt; put_answer(Event::Missed, &mut buffer, 1), 1);
        assert_eq!(rt; &buffer, b"-----");
    }
}
