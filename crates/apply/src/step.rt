// A port of parts of src/verify.rs of metamath-rs 0.3.9 (execute_step), changed (see NOTICE).
// A step of an assertion: its entries are seated, its hypotheses tested, its pairs kept, and its claim replaces the entries.
ghost use Rattle.std.specs.Prelude.{◌*◌, ◌≤◌, ◌<◌, length};
ghost use Rattle.apply.specs.Hyps.{Ranged};
ghost use Rattle.apply.specs.Step.{AppliesChecked, AppliesSeated, Executes};

use crate::claim::finalize_step;
use crate::hyps::process_hyps;
use disjoint::keeps::keeps_pairs;
use frames::fields;
use frames::numbers::StatementNo;
use machine::Refusal;
use memory::{Counts, Limits, Outcome};
use recording::record_step;
use seats::seat_entries;

// The pairs of the assertion at `at`, then its claim: 38, 43, 45.
fn apply_checked(
    file: &[u8],
    symbols: &[u32],
    statements: &[u32],
    at: u32,
    table: &[u64],
    froms: &[u32],
    tos: &[u32],
    sets: &[u64],
    pool: &mut [u8],
    stack: &mut [u64],
    c: Counts,
    limits: Limits,
    left: usize,
    tag: usize,
    end: usize,
    word: usize,
    nodes: usize,
) -> Outcome
    requires used_le_pool { ((c.used ≤ limits.pool) × (limits.pool ≤ length pool.old)) × ((10 * limits.stack ≤ length stack.old) × (limits.stack ≤ 1024)) }
    requires ranged { Ranged froms.now tos.now c.used }
    ensures { AppliesChecked file.now symbols.now statements.now at table.now froms.now tos.now sets.now pool.old stack.old c limits left tag end word nodes pool.new stack.new result }
{
    if keeps_pairs(file, statements, at, sets, table) {
        return finalize_step(
            file, symbols, at, froms, tos, sets, pool, stack, c, limits, left, tag, end, word,
            nodes,
        );
    }
    Err(Refusal::ProofDvViolation)
}

// The hypotheses of the assertion at `at`, whose entries are seated, then its pairs and its claim: 35 to 38, 43, 45.
fn apply_seated(
    file: &[u8],
    symbols: &[u32],
    statements: &[u32],
    at: u32,
    table: &[u64],
    seats: &[u32],
    froms: &mut [u32],
    tos: &mut [u32],
    sets: &mut [u64],
    pool: &mut [u8],
    stack: &mut [u64],
    c: Counts,
    limits: Limits,
    left: usize,
    tag: usize,
    end: usize,
    word: usize,
    nodes: usize,
) -> Outcome
    requires used_le_pool { ((c.used ≤ limits.pool) × (limits.pool ≤ length pool.old)) × ((10 * limits.stack ≤ length stack.old) × (limits.stack ≤ 1024)) }
    requires ranged { (Ranged froms.old tos.old c.used × (length froms.old ≤ length tos.old)) × ((c.used < 4294967296) × (left ≤ 1024)) }
    ensures { AppliesSeated file.now symbols.now statements.now at table.now seats.now froms.old tos.old sets.old pool.old stack.old c limits left tag end word nodes froms.new tos.new sets.new pool.new stack.new result }
{
    let used = c.used;
    process_hyps(
        file, symbols, statements, at, stack, left, seats, used, froms, tos, sets, pool,
    )?;
    apply_checked(
        file, symbols, statements, at, table, froms, tos, sets, pool, stack, c, limits, left, tag,
        end, word, nodes,
    )
}

// A step of assertion a, with a mark or none: 32 to 38, 43, 45. (A file that was checked lists at most 64 hypotheses.)
pub fn execute_step(
    file: &[u8],
    symbols: &[u32],
    statements: &[u32],
    a: StatementNo,
    text: &[u8],
    table: &[u64],
    seats: &mut [u32],
    froms: &mut [u32],
    tos: &mut [u32],
    sets: &mut [u64],
    pool: &mut [u8],
    stack: &mut [u64],
    tree: &mut [u64],
    c: Counts,
    limits: Limits,
    tag: usize,
    end: usize,
) -> Outcome
    requires used_le_pool { ((c.used ≤ limits.pool) × (limits.pool ≤ length pool.old)) × ((10 * limits.stack ≤ length stack.old) × (limits.stack ≤ 1024)) }
    requires ranged { (Ranged froms.old tos.old c.used × (length froms.old ≤ length tos.old)) × ((c.used < 4294967296) × ((c.depth ≤ 1024) × (64 ≤ length seats.old))) }
    requires recorded { length tree.old ≤ 131072 }
    ensures { Executes file.now symbols.now statements.now a.0 text.now table.now froms.old tos.old sets.old pool.old stack.old tree.old c limits tag end froms.new tos.new sets.new pool.new stack.new tree.new result }
{
    let at = fields::statement_offset(statements, a);
    let n = fields::hypotheses(file, at);
    let depth = c.depth;
    if depth < n {
        return Err(Refusal::ProofUnderflow);
    }
    if 64 < n {
        return Err(Refusal::ProofUnderflow);
    }
    seat_entries(file, statements, at, text, stack, depth - n, n, seats)?;
    let noted = record_step(at, stack, depth - n, seats, n, tree, c.nodes);
    apply_seated(
        file,
        symbols,
        statements,
        at,
        table,
        seats,
        froms,
        tos,
        sets,
        pool,
        stack,
        c,
        limits,
        depth - n,
        tag,
        end,
        noted.word,
        noted.nodes,
    )
}
