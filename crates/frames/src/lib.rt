// The frame file: its refusals and verdicts, and readers of its records. The check of a whole file is in the crate filecheck.
#![tactic(auto)]

ghost use Rattle.std.specs.Prelude.{◌≡◌};
ghost use Rattle.frames.specs.Verdict.{number_of};

pub mod fields;
pub mod numbers;
pub mod read;
pub mod record;
pub mod refer;
pub mod text;

// Why a frame file is turned away.
#[derive(Clone, Copy, Debug, PartialEq, Eq)]
pub enum Refusal {
    BadRecord,
    TooMany,
    BadSymbol,
    BadLabel,
    BadReference,
    BadFrame,
    NoProof,
}

// A good file: how many symbols and statements it has.
#[derive(Clone, Copy, Debug, PartialEq, Eq)]
pub struct Sizes {
    pub symbols: usize,
    pub statements: usize,
}

// A file that is turned away: why, and the offset of the record at fault.
#[derive(Clone, Copy, Debug, PartialEq, Eq)]
pub struct TurnedAway {
    pub why: Refusal,
    pub place: usize,
}

// The answer of the file check.
pub type Verdict = Result<Sizes, TurnedAway>;

// The paper's number of a refusal.
pub fn number(why: Refusal) -> usize
    ensures { result ≡ number_of why }
{
    match why {
        Refusal::BadRecord => 1,
        Refusal::TooMany => 2,
        Refusal::BadSymbol => 3,
        Refusal::BadLabel => 4,
        Refusal::BadReference => 5,
        Refusal::BadFrame => 6,
        Refusal::NoProof => 7,
    }
}
