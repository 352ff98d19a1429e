// The text around the unit: bytes in, bytes out, with no input or output of its own.

#![tactic(auto)]

mod newline;
mod part;

ghost use Rattle.std.specs.Prelude.{◌≡◌, ◌≤◌, length};
ghost use Rattle.text.specs.Buffer.{with_text};
ghost use Rattle.text.specs.bounds.Room.{STATUS};
ghost use Rattle.console.specs.bounds.Room.{FINAL};
ghost use Rattle.console.specs.State.{new_console};
ghost use Rattle.console.specs.Stands.{Reached};
ghost use Rattle.console.specs.Feed.{fed_of, fed_buffer, Progress, Continued, FeedKept};
ghost use Rattle.console.specs.Finish.{last_unit, last_text, finished_of, finished_buffer, Completes, FinishKept};

use newline::line_end;
use part::Part;
use std::marker::Model;
use text::NEWLINE;
use text::answer::{ANSWER, put_answer_by};
use text::report::{STATUS, put_status_by};
use unit::{Unit, status, take};

// How many bytes the end has at most: the unended line's answer, and the status.
const FINAL: usize = ANSWER + STATUS;

// What a console holds: a unit, and the part of a line not yet ended.
#[derive(Clone, Copy)]
pub struct Contents {
    unit: Unit,
    part: Part,
}

// A console, which clauses see as what it holds. Some input leads to it from a new one: only
// `new_console` and `feed` make one.
#[derive(Clone, Copy)]
pub struct Console {
    contents: Contents,
}

impl Model for Console {
    ghost use Rattle.console.specs.declared.Contents.{Contents};

    ghost Value = { Contents };

    ghost use Rattle.console.specs.Stands.{Reached};

    ghost view = { λ c. c.contents };

    ghost invariant = { λ c. Reached c.contents };

    ghost inverse = { λ c. record { contents = c } };
}

// What feeding gives: the console after it, how many bytes it took, and how many it wrote.
#[derive(Clone, Copy)]
pub struct Fed {
    pub console: Console,
    pub taken: usize,
    pub written: usize,
}

// A console of a unit, which has taken no input.
pub fn new_console(unit: Unit) -> Console
    ensures whole { result ≡ new_console unit }
    ensures reached { Reached result }
{
    unit.known();
    let part = Part::new();
    Console {
        contents: Contents { unit, part },
    }
}

// Takes the input line by line and answers each that ends, an empty one by the status, while the
// output has room for a status, the longest answer.
// `whole`, `bytes`: what is handed back and every byte of the output are the definitions'. `reached`:
// the console is one that our calls made. `progress`: something is taken where there is room.
// `stands`: what is written so far is the transcript's, whatever pieces the input comes in. `kept`: a
// refusal changes nothing, nor does an empty line.
pub fn feed(start: Console, input: &[u8], output: &mut [u8]) -> Fed
    ensures whole { result ≡ fed_of start input.now (length output.old) }
    ensures bytes { output.new ≡ fed_buffer start input.now output.old }
    ensures reached { Reached result.console }
    ensures progress { Progress input.now output.new result }
    ensures stands { Continued start input.now output.new result }
    ensures kept { FeedKept start input.now output.old output.new result }
{
    let mut unit = start.contents.unit;
    let mut part = start.contents.part;
    let mut rest = input;
    let mut written = 0;
    while !rest.is_empty() & (STATUS <= output.len() - written) {
        let (before, after) = rest.split_at(line_end(rest));
        part.hold(before);
        rest = after;
        if let Some((_, next)) = after.split_first() {
            rest = next;
            let line = part.line();
            if line.is_empty() {
                // A copy: the loop is quicker where only `take` is handed the unit itself.
                let there = unit;
                written = put_status_by(status(there), output, written);
            } else {
                let answer = take(unit, line);
                let event = answer.event;
                unit = answer.unit;
                part = Part::new();
                written = put_answer_by(event, output, written);
            }
        }
    }
    let console = Console {
        contents: Contents { unit, part },
    };
    Fed {
        console,
        taken: input.len() - rest.len(),
        written,
    }
}

// Ends a line that is under way, as its newline would.
fn end_line(console: Console, output: &mut [u8]) -> Fed
    requires { STATUS ≤ length output.old }
    ensures unit { result.console.unit ≡ last_unit console }
    ensures place { result.written ≡ length (last_text console) }
    ensures text { output.new ≡ with_text output.old 0 (last_text console) }
{
    if console.contents.part.line().is_empty() {
        return Fed {
            console,
            taken: 0,
            written: 0,
        };
    }
    let newline = [NEWLINE];
    feed(console, &newline, output)
}

// Ends the last line and writes the status. To a buffer that could be too short nothing is written, and
// 0 is handed back, as no text is empty: `&output[..written]` is what was written in either case, which of an
// `Option` takes a `match`.
// `whole`, `bytes`: what is handed back and every byte of the output are the definitions'.
// `transcript`: what `feed` and this wrote is the transcript of the whole input. `kept`: the rest of
// the output is as it was.
pub fn finish(console: Console, output: &mut [u8]) -> usize
    ensures whole { result ≡ finished_of console (length output.old) }
    ensures bytes { output.new ≡ finished_buffer console output.old }
    ensures within { result ≤ length output.new }
    ensures transcript { Completes console output.old output.new result }
    ensures kept { FinishKept output.old output.new result }
{
    if output.len() < FINAL {
        return 0;
    }
    let last = end_line(console, output);
    put_status_by(status(last.console.contents.unit), output, last.written)
}
