// The derivation of a run as the tree entries hold it. This crate has no code: the definitions are in specs/, the laws in proofs/.
#![tactic(auto)]
