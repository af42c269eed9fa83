// A port of parts of src/verify.rs of metamath-rs 0.3.9 (VerifyState, save_step), changed (see NOTICE).
// The working memory of a run: the stack and the places as lent tables of rows, and the counts that go with them by value.
#![tactic(auto)]

pub mod stack;
pub mod table;

use machine::Refusal;

// How much of the memory is used: pool bytes, variables, places, local labels, stack entries, tree entries (more than are lent where the derivation did not
// fit).
#[derive(Clone, Copy)]
pub struct Counts {
    pub used: usize,
    pub count: u32,
    pub places: usize,
    pub locals: usize,
    pub depth: usize,
    pub nodes: usize,
}

// How much of it may be used.
#[derive(Clone, Copy)]
pub struct Limits {
    pub pool: usize,
    pub stack: usize,
    pub places: usize,
}

// The run goes on with these counts, or the proof is refused.
pub type Outcome = Result<Counts, Refusal>;
