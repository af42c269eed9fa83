// The run of a proof: what a letter of a compressed proof is, and why a proof is refused. The definition of a run is in specs/, for whoever asks what the bench promises; the laws about
// it are in proofs/. The code that runs proofs is in the crates above.
#![tactic(auto)]

// Why a proof is refused, in the order of the paper's numbers, 20 to 46.
#[derive(Clone, Copy, Debug, PartialEq, Eq)]
pub enum Refusal {
    BadByte,
    ProofUnterminatedRoster,
    ProofMalformedVarint,
    ProofInvalidSave,
    ProofIncomplete,
    StepMissing,
    LocalLabelAmbiguous,
    LocalLabelDuplicate,
    ChainBackref,
    StepUsedBeforeDefinition,
    StepUsedAfterScope,
    StepOutOfRange,
    ProofUnderflow,
    BadExplicitLabel,
    DuplicateExplicitLabel,
    StepFloatWrongType,
    StepEssenWrongType,
    StepEssenWrong,
    ProofDvViolation,
    ProofExcessEnd,
    ProofNoSteps,
    ProofWrongTypeEnd,
    ProofWrongExprEnd,
    PoolFull,
    TooManyVariables,
    StackFull,
    PlacesFull,
}

// The class of a letter of a compressed proof: the last digit of a step's place, a higher digit, `Z`, `?`, or a byte that is ignored.
#[derive(Clone, Copy, Debug, PartialEq, Eq)]
pub enum Letter {
    Last(usize),
    Higher(usize),
    Save,
    Incomplete,
    Ignored,
}
