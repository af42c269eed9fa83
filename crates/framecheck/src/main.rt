// Checks the frame file on standard input, of at most 65,536 bytes, and writes its verdict as one line:
// `good SYMBOLS STATEMENTS` or `refused NUMBER PLACE`. A longer input is `refused 2 0`.
#![tactic(auto)]

ghost use Rattle.std.specs.Prelude.{◌≡◌, length, take};
ghost use Rattle.io.specs.Counts.{IsPrefixLen};
ghost use Rattle.verdict_text.specs.Text.{line_of};
ghost use Rattle.framecheck.specs.Program.{answer_of};

use frames::{Refusal, TurnedAway, Verdict};

// The descriptors of standard input and output.
const STDIN_FILENO: i32 = 0;

const STDOUT_FILENO: i32 = 1;

// The verdict on an input, with tables lent for the check.
#[tactic(auto, unfolding(crate::specs::Program::answer_of))]
fn answer(input: &[u8]) -> Verdict
    ensures { result ≡ answer_of input.now }
{
    if input.len() > 65536 {
        return Err(TurnedAway {
            why: Refusal::TooMany,
            place: 0,
        });
    }
    let mut symbols = [0; 4096];
    let mut statements = [0; 4096];
    filecheck::check(input, &mut symbols, &mut statements)
}

// Puts the line that answers an input at the start of out, and answers how many bytes it has.
fn reply(input: &[u8], out: &mut [u8; 64]) -> usize
    ensures prefix_len { IsPrefixLen result out.new }
    ensures out_after { take result out.new ≡ line_of (answer_of input.now) }
{
    verdict_text::put(answer(input), out)
}

fn main() {
    // One byte more than the program takes, so that a longer input is seen.
    let mut input = [0; 65537];
    let n = io::read_full(STDIN_FILENO, &mut input);
    let mut line = [0; 64];
    let k = reply(&input[..n], &mut line);
    io::write_all(STDOUT_FILENO, &line[..k]);
}
