// What holds of every good frame file. This crate has no code: its laws are in proofs/, about the definitions of the crate frames,
// for the layers above. `good-facts` is the one to read first (proofs/GoodFacts.antt).
#![tactic(auto)]
