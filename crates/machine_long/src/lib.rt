// What the definition of a run computes on a long file, inside the checker. This crate has no code: the file is in specs/, the laws and
// facts in proofs/.
#![tactic(auto)]
