// A port of parts of src/verify.rs of metamath-rs 0.3.9 (verify_proof, finalize_step), changed (see NOTICE).
// The findings at the end of a proof's text, and the answer that they give.
#![tactic(auto)]

ghost use Rattle.std.specs.Prelude.{◌≡◌};
ghost use Rattle.findings.specs.Tells.{ChecksMode, answer_of, Closes};

use ends::end::check_end;
use frames::refer::entry_or;
use machine::Refusal;
use memory::Counts;
use run::Mode;
use run_bytes::Stopped;

// The proof is accepted, at this place and after so many steps, with the word of its derivation and the tree entries that hold it.
#[derive(Clone, Copy, Debug, PartialEq, Eq)]
pub struct Acceptance {
    pub place: usize,
    pub steps: usize,
    pub word: u64,
    pub nodes: usize,
}

// The proof is accepted, or it is refused.
pub type Answer = Result<Acceptance, Stopped>;

// How the mode stands at the end of the text: 21 in the roster, 22 with an unfinished k.
fn check_mode(mode: Mode) -> Result<(), Refusal>
    ensures { ChecksMode mode result }
{
    match mode {
        Mode::Roster => Err(Refusal::ProofUnterminatedRoster),
        Mode::Letters { k, can_save } => {
            if 0 < k {
                return Err(Refusal::ProofMalformedVarint);
            }
            Ok(())
        }
        Mode::Beginning => Ok(()),
        Mode::Normal => Ok(()),
    }
}

// The answer of an end: accepted, or refused, at this place and after so many steps.
fn settled(
    ended: Result<(), Refusal>,
    place: usize,
    steps: usize,
    word: u64,
    nodes: usize,
) -> Answer
    ensures { result ≡ answer_of ended place steps word nodes }
{
    match ended {
        Ok(()) => Ok(Acceptance {
            place,
            steps,
            word,
            nodes,
        }),
        Err(why) => Err(Stopped { why, place, steps }),
    }
}

// The findings at the end of the text: 21, 22, then 39 to 42. The word of the derivation is the sixth of the lowest row.
pub fn finish(
    file: &[u8],
    symbols: &[u32],
    at: u32,
    stack: &[u64],
    pool: &[u8],
    c: Counts,
    mode: Mode,
    place: usize,
    steps: usize,
) -> Answer
    ensures { Closes file.now symbols.now at stack.now pool.now c mode place steps result }
{
    let word = entry_or(stack, 5, 0);
    let ended = check_mode(mode).and_then(|()| check_end(file, symbols, at, stack, pool, c));
    settled(ended, place, steps, word, c.nodes)
}
