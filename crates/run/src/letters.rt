// A port of parts of src/verify.rs of metamath-rs 0.3.9 (the letters in verify_proof), changed (see NOTICE).
// The letters of a compressed proof: what comes after the step of a letter; a digit, a save, an unknown step.
ghost use Rattle.std.specs.Prelude.{◌≡◌, ◌*◌, ◌≤◌, ◌<◌, length};
ghost use Rattle.machine.specs.Run.{k_limit};
ghost use Rattle.run.specs.Letters.{after_last, HigherLetter, SaveLetter, IncompleteLetter};

use crate::{Going, Halted, Mode, Read};
use machine::Refusal;
use memory::stack::save_top;
use memory::{Counts, Outcome};

// k must stay below this.
pub const K_LIMIT: usize = 214748363;

// Whether `Z` may come after a step, after a digit, after a save.
const AFTER_STEP: bool = true;

const AFTER_DIGIT: bool = false;

const AFTER_SAVE: bool = false;

// `A`..`T`: after the step of its place. A step that is refused is not counted.
pub fn after_last(outcome: Outcome, steps: usize) -> Read
    requires { steps ≤ 65536 }
    ensures { result ≡ after_last outcome steps }
{
    match outcome {
        Ok(now) => Ok(Going {
            mode: Mode::Letters {
                k: 0,
                can_save: AFTER_STEP,
            },
            counts: now,
            steps: steps + 1,
        }),
        Err(why) => {
            let completed = steps;
            Err(Halted {
                why,
                steps: completed,
            })
        }
    }
}

// `U`..`Y`: one more digit of k: 22 where it does not stay below its limit.
pub fn higher_letter(c: Counts, k: usize, d: usize, steps: usize) -> Read
    requires { (k < k_limit) × (d < 20) }
    ensures { HigherLetter c k d steps result }
{
    let next = 5 * k + d;
    if next < K_LIMIT {
        return Ok(Going {
            mode: Mode::Letters {
                k: next,
                can_save: AFTER_DIGIT,
            },
            counts: c,
            steps,
        });
    }
    Err(Halted {
        why: Refusal::ProofMalformedVarint,
        steps,
    })
}

// `Z`: saves the top: 23 where it may not come, 46.
pub fn save_letter(
    stack: &[u64],
    places: &mut [u64],
    c: Counts,
    limit: usize,
    k: usize,
    saves: bool,
    steps: usize,
) -> Read
    requires limit_in_bounds { ((10 * limit ≤ length places.old) × (limit ≤ 4096)) × (c.depth ≤ 1024) }
    requires low { k < k_limit }
    ensures { SaveLetter stack.now places.old places.new c limit k saves steps result }
{
    if saves {
        return match save_top(stack, places, c, limit) {
            Ok(now) => Ok(Going {
                mode: Mode::Letters {
                    k,
                    can_save: AFTER_SAVE,
                },
                counts: now,
                steps,
            }),
            Err(why) => Err(Halted { why, steps }),
        };
    }
    Err(Halted {
        why: Refusal::ProofInvalidSave,
        steps,
    })
}

// `?`: 22 with k above 0, else 24.
pub fn incomplete_letter(k: usize, steps: usize) -> Read
    ensures { IncompleteLetter k steps result }
{
    if 0 < k {
        return Err(Halted {
            why: Refusal::ProofMalformedVarint,
            steps,
        });
    }
    Err(Halted {
        why: Refusal::ProofIncomplete,
        steps,
    })
}
