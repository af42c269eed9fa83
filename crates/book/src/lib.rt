// What a derivation is, by the Metamath book. This crate has no code: the definition is specs/Book.antt, and it is what an acceptance
// means (crates/machine).
#![tactic(auto)]
