// The long form of a proof: what it is, and its laws. This crate has no code: the definitions are in specs/, the laws in proofs/.
#![tactic(auto)]
