#![tactic(auto)]

// Answers the lines of standard input on standard output, by a unit, and then gives the status. Where
// a read or a write fails it stops, and says so.
ghost use Rattle.std.specs.Prelude.{◌≡◌, ◌≤◌, length};
ghost use Rattle.console.specs.bounds.Room.{FINAL};

use console::{Console, feed, finish, new_console};
use std::io;
use std::io::{Input, Read, Write};
use unit::Unit;

// How many bytes are read at once, and written at once at most: far more than the end has.
const BUFFER: usize = 65536;

// Feeds a piece of the input, and writes what each call of `feed` wrote.
fn answer(
    mut console: Console,
    piece: &[u8],
    output: &mut [u8],
    writer: &mut impl Write,
) -> io::Result<Console>
    requires { FINAL ≤ length output.old }
    ensures { length output.new ≡ length output.old }
{
    let mut rest = piece;
    while !rest.is_empty() {
        let fed = feed(console, rest, output);
        console = fed.console;
        rest = &rest[fed.taken..];
        writer.write_all(&output[..fed.written])?;
    }
    Ok(console)
}

// Answers the whole input and then gives the status, if no read or write fails. A proved loop has to
// end, and nothing says that the input does: the loop has more turns than any run uses up. Five
// parameters: a struct of the last four would be made for this one call.
fn converse(
    mut console: Console,
    input: &mut [u8],
    output: &mut [u8],
    reader: &mut impl Read,
    writer: &mut impl Write,
) -> io::Result<()>
    requires { FINAL ≤ length output.old }
{
    for _ in 0..u64::MAX {
        let read = reader.read(input)?;
        if read == 0 {
            break;
        }
        console = answer(console, &input[..read], output, writer)?;
    }
    let written = finish(console, output);
    writer.write_all(&output[..written])
}

// Answers the lines of standard input on standard output, by a unit, and then gives the status. It
// lends nothing and hands back the error, if a read or a write failed. No contract can speak of what the
// host reads and writes: that each piece is fed and what is fed is written, before more is read, is read off
// the code above.
pub fn run(rt: &(impl Input + Print), unit: Unit) -> io::Result<()> {
    let mut input = [0u8; BUFFER];
    let mut output = [0u8; BUFFER];
    converse(
        new_console(unit),
        &mut input,
        &mut output,
        &mut rt.reader(),
        &mut io::writer(rt),
    )
}
