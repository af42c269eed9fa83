// The rows of the table: each of the seven functions decides one row for the record at `at`, given the offsets of the symbols and
// of the statements before it.
#![tactic(auto)]

mod framing;
mod numbers;
mod proof;
mod shape;
mod texts;

pub use framing::bad_frame;
pub use numbers::bad_reference;
pub use proof::no_proof;
pub use shape::{bad_record, too_many};
pub use texts::{bad_label, bad_symbol};
