// Reads lines on standard input and prints for each the number of its refusal, as two digits, or
// the line written back.

#![tactic(auto)]

mod answer;

ghost use Rattle.std.specs.Prelude.{◌≡◌, eqb};
ghost use Rattle.lines.specs.Answer.{NEWLINE as LINE_END, answer_of};

use answer::{ANSWER, NEWLINE, put_line};
use difference::category::Category;
use food_line::food::FoodLine;
use residue_line::residue::ResidueLine;

// The descriptor of standard input, which is read into a buffer and counted: std's reader wants an `Input`,
// and `run` asks its callers for a `Print` alone. Two programs read so too, in two lines: a function would
// be lent the buffer, and be called in two lines as well.
const STDIN: i32 = 0;

// What is printed for a line, put into a buffer.
#[tactic(auto, unfolding(food_line::specs::Read::read_of, residue_line::specs::Read::read_of))]
fn put_answer<'a>(category: Category, line: &[u8], out: &'a mut [u8; ANSWER]) -> &'a [u8]
    ensures { result.now ≡ answer_of category line.now }
{
    match category {
        Category::Food => put_line(FoodLine, line, out),
        Category::Residue(compound) => put_line(ResidueLine { compound }, line, out),
    }
}

fn print_answer(rt: &impl Print, category: Category, line: &[u8]) -> std::io::Result<()> {
    rt.write_all(put_answer(category, line, &mut [0u8; ANSWER]))
}

// Whether a byte ends a line.
fn ends_line(b: u8) -> bool
    ensures { result ≡ eqb b LINE_END }
{
    b == NEWLINE
}

// An unended last line counts if it is not empty.
fn print_answers(rt: &impl Print, category: Category, input: &[u8]) -> std::io::Result<()> {
    for line in input.split_inclusive(|b| ends_line(*b)) {
        print_answer(rt, category, line.strip_suffix(&[NEWLINE]).unwrap_or(line))?;
    }
    Ok(())
}

// Answers the lines of standard input, of a category, which are far fewer than the buffer holds. It lends nothing and
// hands back the error, if a write failed, and no contract can speak of what is read and written.
pub fn run(rt: &impl Print, category: Category) -> std::io::Result<()> {
    let mut input = io::large_buffer();
    let n = io::read_full(STDIN, &mut input);
    print_answers(rt, category, &input[..n])
}
