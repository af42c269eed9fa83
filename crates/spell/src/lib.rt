// The text of a recorded derivation: its labels in post-order, one space between. It is written from the end to the front, with the words that are still to be
// written in a table, and without recursion.
#![tactic(auto)]

pub mod text;
pub mod words;
