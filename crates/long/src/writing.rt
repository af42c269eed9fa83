// What is told of a proof's answer where its long form is asked for: 60, 61, or its length, and then it is written.
ghost use Rattle.std.specs.Prelude.{◌≡◌, length};
ghost use Rattle.frames.specs.Logic.{below};
ghost use Rattle.findings.specs.Answers.{Accepted};
ghost use Rattle.postorder.specs.LongForm.{entries_for};
ghost use Rattle.long.specs.Telling.{TellsLong};

use findings::Answer;
use long_text::write_long;
use told::{Told, tell};

// Room for the sizes of all tree entries: of those that were lent, so many are used at most.
pub const ENTRIES: usize = 131072;

// Room for the pending words of a derivation.
const PENDING_WORDS: usize = 32768;

// The tree entries that were lent are fewer than 2 x steps - 1: half of them, rounded up, are fewer than the steps.
fn too_few(lent: usize, steps: usize) -> bool
    ensures { result ≡ below lent (entries_for steps) }
{
    lent - lent / 2 < steps
}

// An accepted proof: 60 where too few tree entries were lent, 61 where the text is too long, else the text is written.
fn long_accepted(
    file: &[u8],
    tree: &[u64],
    lent: usize,
    place: usize,
    steps: usize,
    word: u64,
    nodes: usize,
    output: &mut [u8],
) -> Told
    ensures { TellsLong file.now tree.now lent (Accepted place steps word nodes) output.old output.new result }
{
    if too_few(lent, steps) {
        return Told {
            number: 60,
            place,
            steps,
        };
    }
    let mut sizes = [0; ENTRIES];
    let mut pending = [0; PENDING_WORDS];
    match write_long(file, tree, nodes, word, &mut sizes, &mut pending, output) {
        Some(n) => Told {
            number: 0,
            place: n,
            steps,
        },
        None => Told {
            number: 61,
            place,
            steps,
        },
    }
}

// What is told of a proof's answer: its refusal, or the long form is written.
pub fn tell_long(file: &[u8], tree: &[u64], lent: usize, answer: Answer, output: &mut [u8]) -> Told
    ensures { TellsLong file.now tree.now lent answer output.old output.new result }
{
    match answer {
        Ok(accepted) => long_accepted(
            file,
            tree,
            lent,
            accepted.place,
            accepted.steps,
            accepted.word,
            accepted.nodes,
            output,
        ),
        Err(x) => tell(Err(x)),
    }
}
