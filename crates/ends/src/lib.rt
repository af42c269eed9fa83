// A port of parts of src/verify.rs of metamath-rs 0.3.9 (finalize_step, the local labels in verify_proof), changed (see NOTICE).
// What comes after a normal step, its local label; and what comes at the end of a proof, the claim.
#![tactic(auto)]

pub mod end;
pub mod local;
