// Reads rows of eight characters and a newline on standard input, and prints for each the four bytes
// that the step gives for the word of them, as eight digits, or `refused` and its number: `read_word`
// run on words whose answers were worked out independently.

#![tactic(auto)]

ghost use Rattle.std.specs.Prelude.{◌≡◌};
ghost use Rattle.case_word.specs.Answer.{answer_of};

use digits::read_word;
use rows::refusal::Refusal;

// The descriptor of standard input, which is read into a buffer and counted: std's reader would reach a C call
// more, `lseek`, and nothing new is trusted. `lines` and two programs read so, in two lines: a function would
// be lent the buffer, and be called in two lines as well.
const STDIN: i32 = 0;

// How many characters a row has, and how many bytes with its newline.
const CHARACTERS: usize = 8;

const ROW: usize = CHARACTERS + 1;

// What the characters of a row stand for.
fn answer(word: [u8; CHARACTERS]) -> Result<u32, Refusal>
    ensures { result ≡ answer_of word }
{
    read_word(u64::from_be_bytes(word))
}

fn print_answer(rt: &impl Print, word: [u8; CHARACTERS]) -> std::io::Result<()> {
    match answer(word) {
        Err(refusal) => println!(rt; "refused {refusal}"),
        Ok(four) => println!(rt; "{four:08x}"),
    }
}

fn print_answers(rt: &impl Print, rows: &[u8]) -> std::io::Result<()> {
    for row in rows.chunks_exact(ROW) {
        if let Some(word) = row.first_chunk() {
            print_answer(rt, *word)?;
        }
    }
    Ok(())
}

fn main(rt: HostRuntime) -> std::io::Result<()> {
    let mut input = io::large_buffer();
    let n = io::read_full(STDIN, &mut input);
    print_answers(&rt, &input[..n])
}
