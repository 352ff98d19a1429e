// Reads rows of 12 digits on standard input: product, analyte, mean and reading in hundredths. Prints
// for each the standardizing value, d and the contributions to P, N, V and D, or its refusal:
// `standardize` run on rows whose answers were worked out independently.

#![tactic(auto)]

ghost use Rattle.std.specs.Prelude.{◌≡◌, ◌<◌};
ghost use Rattle.case_standard.specs.Answer.{pair_at, answer_of};

use difference::standardize::{Figures, standardize};
use digits::byte_in;
use rows::refusal::Refusal;

// The descriptor of standard input, which is read into a buffer and counted: std's reader would reach a C call
// more, `lseek`, and nothing new is trusted. `lines` and two programs read so, in two lines: a function would
// be lent the buffer, and be called in two lines as well.
const STDIN: i32 = 0;

// A row: 12 digits, and the newline that ends it.
const ROW: usize = 13;

// The byte that two digits of a row write.
fn pair_at(row: &[u8; ROW], i: usize) -> Result<u8, Refusal>
    requires { i < 6 }
    ensures { result ≡ pair_at row.now i }
{
    byte_in(row[2 * i], row[2 * i + 1]).ok_or(Refusal::Digit)
}

// What a row stands for.
fn answer(row: &[u8; ROW]) -> Result<Figures, Refusal>
    ensures { result ≡ answer_of row.now }
{
    let product = pair_at(row, 0)?;
    let analyte = pair_at(row, 1)?;
    let mean = u16::from_be_bytes([pair_at(row, 2)?, pair_at(row, 3)?]);
    let reading = u16::from_be_bytes([pair_at(row, 4)?, pair_at(row, 5)?]);
    standardize(product, analyte, mean, reading)
}

fn print_answer(rt: &impl Print, row: &[u8; ROW]) -> std::io::Result<()> {
    match answer(row) {
        Err(refusal) => println!(rt; "refused {refusal}"),
        Ok(figures) => {
            let to = figures.contributions;
            println!(rt;
                "{} {} {} {} {} {}",
                figures.value, figures.difference.tenths, to.p, to.n, to.v, to.d
            )
        }
    }
}

fn main(rt: HostRuntime) -> std::io::Result<()> {
    let mut input = io::large_buffer();
    let n = io::read_full(STDIN, &mut input);
    let (rows, _) = input[..n].as_chunks::<ROW>();
    for row in rows {
        print_answer(&rt, row)?;
    }
    Ok(())
}
