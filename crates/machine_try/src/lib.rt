// What the definition of a run computes, inside the checker: each number from 20 to 46, and examples with the answers that document 01
// gives them. This crate has no code: the examples are in specs/, the facts in proofs/.
#![tactic(auto)]
