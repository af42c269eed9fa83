// A port of parts of src/verify.rs of metamath-rs 0.3.9, changed (see NOTICE).
// The engine: one proof is run over lent buffers, a step of the definition (crates/machine) for each function.
#![tactic(auto)]

pub mod hypothesis;
pub mod place;
pub mod raw_set;
pub mod ready;
pub mod roster;
