// Expressions in the pool: packed as in the Rust, written, copied, compared and substituted. What packing is stands in
// specs/Packing.antt.
#![tactic(auto)]

pub mod compare;
pub mod images;
pub mod pool;
pub mod substitute;
