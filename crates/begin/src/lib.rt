// A port of parts of src/verify.rs of metamath-rs 0.3.9 (the start of verify_proof), changed (see NOTICE).
// What comes before the first token of a proof: the text has no bad byte, and the first variables are numbered.
#![tactic(auto)]

ghost use Rattle.begin.specs.Begins.{Begins};

use machine::Refusal;
use memory::{Counts, Outcome};
use tokens::any_bad;
use variables::{map_floats, map_pairs};

// The start of the proof of the statement at `at`: 20 for a bad byte; then its mandatory variables are numbered and the members of its pairs, 44 at a 257th.
pub fn begin(file: &[u8], statements: &[u32], at: u32, text: &[u8], numbers: &mut [u32]) -> Outcome
    ensures { Begins file.now statements.now at text.now numbers.old numbers.new result }
{
    if any_bad(text) {
        return Err(Refusal::BadByte);
    }
    let mandatory = map_floats(file, statements, at, numbers, 0);
    // a good file lists at most 64 hypotheses: this test is for all other bytes
    if 256 < mandatory {
        return Err(Refusal::TooManyVariables);
    }
    let count = map_pairs(file, at, numbers, mandatory);
    if 256 < count {
        return Err(Refusal::TooManyVariables);
    }
    Ok(Counts {
        used: 0,
        count: count,
        places: 0,
        locals: 0,
        depth: 0,
        nodes: 0,
    })
}
