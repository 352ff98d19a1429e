// Where a line ends.

ghost use Rattle.console.specs.Lines.{Before};

use memchr::memchr;
use text::NEWLINE;

// How many bytes stand before the first newline: all, where there is none.
#[tactic(auto, using(crate::proofs::PartLaws::ends_at))]
pub fn line_end(part: &[u8]) -> usize
    ensures { Before part.now result }
{
    memchr(NEWLINE, part).unwrap_or(part.len())
}
