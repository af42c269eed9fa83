// The answer of a call, for callers in C and Rust: the paper's number of a refusal, and number, place and steps as one number of 64 bits.
#![tactic(auto)]

ghost use Rattle.std.specs.Prelude.{◌≡◌, ◌<◌};
ghost use Rattle.machine.specs.Answer.{refusal_number};
ghost use Rattle.answers.specs.Packed.{packed_answer, number_in, place_in, steps_in};

use machine::Refusal;

// The paper's number of a refusal of a proof. (That of a file is `frames::number`.)
// No `From`: neither `Refusal` nor `usize` is of this crate.
pub fn refusal_number(why: Refusal) -> usize
    ensures { result ≡ refusal_number why }
{
    match why {
        Refusal::BadByte => 20,
        Refusal::ProofUnterminatedRoster => 21,
        Refusal::ProofMalformedVarint => 22,
        Refusal::ProofInvalidSave => 23,
        Refusal::ProofIncomplete => 24,
        Refusal::StepMissing => 25,
        Refusal::LocalLabelAmbiguous => 26,
        Refusal::LocalLabelDuplicate => 27,
        Refusal::ChainBackref => 28,
        Refusal::StepUsedBeforeDefinition => 29,
        Refusal::StepUsedAfterScope => 30,
        Refusal::StepOutOfRange => 31,
        Refusal::ProofUnderflow => 32,
        Refusal::BadExplicitLabel => 33,
        Refusal::DuplicateExplicitLabel => 34,
        Refusal::StepFloatWrongType => 35,
        Refusal::StepEssenWrongType => 36,
        Refusal::StepEssenWrong => 37,
        Refusal::ProofDvViolation => 38,
        Refusal::ProofExcessEnd => 39,
        Refusal::ProofNoSteps => 40,
        Refusal::ProofWrongTypeEnd => 41,
        Refusal::ProofWrongExprEnd => 42,
        Refusal::PoolFull => 43,
        Refusal::TooManyVariables => 44,
        Refusal::StackFull => 45,
        Refusal::PlacesFull => 46,
    }
}

// Number, place and steps as one number: 8 bits, 24 bits and 32 bits, from the lowest up.
pub fn pack(number: usize, place: usize, steps: usize) -> u64
    requires { (number < 256) × ((place < 16777216) × (steps < 4294967296)) }
    ensures { result ≡ packed_answer number place steps }
{
    number as u64 + 256 * (place as u64) + 4294967296 * (steps as u64)
}

// The number of a packed answer.
pub fn number_in(word: u64) -> usize
    ensures { result ≡ number_in word }
{
    (word % 256) as usize
}

// The place of a packed answer.
pub fn place_in(word: u64) -> usize
    ensures { result ≡ place_in word }
{
    (word / 256 % 16777216) as usize
}

// The steps of a packed answer.
pub fn steps_in(word: u64) -> usize
    ensures { result ≡ steps_in word }
{
    (word / 4294967296) as usize
}
