// A port of parts of src/verify.rs of metamath-rs 0.3.9 (finalize_step), changed (see NOTICE).
// The end of a proof: one entry is left on the stack, and it is the claim.
ghost use Rattle.ends.specs.End.{HoldsClaim, IsClaim, ChecksEnd};

use frames::fields;
use machine::Refusal;
use memory::Counts;
use memory::table::{Row, row_at};
use packed::compare::raw_eq;

// Whether the symbols of a row are those of the statement at `at`.
fn holds_claim(file: &[u8], symbols: &[u32], at: u32, row: Row, pool: &[u8]) -> bool
    ensures { HoldsClaim file.now symbols.now at row pool.now result }
{
    // a row of the stack has its range within the pool: the two tests are for all other words
    row.from <= row.to && row.to <= pool.len() && raw_eq(file, symbols, at, pool, row.from, row.to)
}

// Whether a row is the claim at `at`: 41, 42.
fn is_claim(file: &[u8], symbols: &[u32], at: u32, row: Row, pool: &[u8]) -> Result<(), Refusal>
    ensures { IsClaim file.now symbols.now at row pool.now result }
{
    let typecode = fields::typecode(file, at);
    if row.head != typecode.0 {
        return Err(Refusal::ProofWrongTypeEnd);
    }
    if holds_claim(file, symbols, at, row, pool) {
        return Ok(());
    }
    Err(Refusal::ProofWrongExprEnd)
}

// The end of the proof of the statement at `at`: 40 where no entry is left, 39 where more than one is, then 41 and 42.
pub fn check_end(
    file: &[u8],
    symbols: &[u32],
    at: u32,
    stack: &[u64],
    pool: &[u8],
    c: Counts,
) -> Result<(), Refusal>
    ensures { ChecksEnd file.now symbols.now at stack.now pool.now c result }
{
    let depth = c.depth;
    if depth == 0 {
        return Err(Refusal::ProofNoSteps);
    }
    if 1 < depth {
        return Err(Refusal::ProofExcessEnd);
    }
    let row = row_at(stack, 0);
    is_claim(file, symbols, at, row, pool)
}
