// A port of parts of src/verify.rs of metamath-rs 0.3.9 (verify_proof), changed (see NOTICE).
// How the text of a proof is read on: what its letters, its tokens and its bytes have in common.
#![tactic(auto)]

use machine::Refusal;
use memory::Counts;

pub mod letters;

// How the text is read on: no token yet; a normal proof; in the roster; in the letters, with k and whether `Z` may come.
#[derive(Clone, Copy)]
pub enum Mode {
    Beginning,
    Normal,
    Roster,
    Letters { k: usize, can_save: bool },
}

// The run goes on: how, with which counts, and after how many completed steps.
#[derive(Clone, Copy)]
pub struct Going {
    pub mode: Mode,
    pub counts: Counts,
    pub steps: usize,
}

// The run is refused: why, and after how many completed steps.
#[derive(Clone, Copy, Debug, PartialEq, Eq)]
pub struct Halted {
    pub why: Refusal,
    pub steps: usize,
}

// After a letter or a token.
pub type Read = Result<Going, Halted>;
