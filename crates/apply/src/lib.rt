// A port of parts of src/verify.rs of metamath-rs 0.3.9 (execute_step, process_hyp), changed (see NOTICE).
// Applying an assertion: its hypotheses against the entries of the stack, then its claim as substituted in their place.
#![tactic(auto)]

pub mod claim;
pub mod hyps;
pub mod step;
