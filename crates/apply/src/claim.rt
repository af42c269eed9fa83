// A port of parts of src/verify.rs of metamath-rs 0.3.9 (execute_step's result), changed (see NOTICE).
// The claim of an assertion as substituted, in the place of the entries of its hypotheses.
ghost use Rattle.std.specs.Prelude.{◌*◌, ◌≤◌, length};
ghost use Rattle.apply.specs.Hyps.{Ranged};
ghost use Rattle.apply.specs.Claim.{ClaimRow, Finalizes};

use frames::fields;
use machine::Refusal;
use memory::stack::push;
use memory::table::Row;
use memory::{Counts, Limits, Outcome};
use packed::images::do_substitute_vars;
use packed::substitute::do_substitute;

// The row of the claim at `at`, whose symbols as substituted stand in the pool from `from` up to `to`, with the word of its derivation.
fn claim_row(
    file: &[u8],
    symbols: &[u32],
    at: u32,
    sets: &[u64],
    from: usize,
    to: usize,
    tag: usize,
    end: usize,
    word: usize,
) -> Row
    ensures { ClaimRow file.now symbols.now at sets.now from to tag end word result }
{
    let typecode = fields::typecode(file, at);
    let vars = do_substitute_vars(file, symbols, at, sets);
    Row {
        head: typecode.0,
        from: from,
        to: to,
        tag: tag,
        end: end,
        node: word,
        vars: vars,
    }
}

// The claim at `at` goes over the `left` entries that stay, with `nodes` tree entries used: 43, 45.
pub fn finalize_step(
    file: &[u8],
    symbols: &[u32],
    at: u32,
    froms: &[u32],
    tos: &[u32],
    sets: &[u64],
    pool: &mut [u8],
    stack: &mut [u64],
    c: Counts,
    limits: Limits,
    left: usize,
    tag: usize,
    end: usize,
    word: usize,
    nodes: usize,
) -> Outcome
    requires used_le_pool { ((c.used ≤ limits.pool) × (limits.pool ≤ length pool.old)) × ((10 * limits.stack ≤ length stack.old) × (limits.stack ≤ 1024)) }
    requires ranged { Ranged froms.now tos.now c.used }
    ensures { Finalizes file.now symbols.now at froms.now tos.now sets.now pool.old stack.old c limits left tag end word nodes pool.new stack.new result }
{
    let used = c.used;
    let to = do_substitute(file, symbols, at, froms, tos, pool, used, limits.pool).ok_or(
        Refusal::PoolFull,
    )?;
    let row = claim_row(file, symbols, at, sets, used, to, tag, end, word);
    let now = Counts {
        used: to,
        nodes: nodes,
        ..c
    };
    push(stack, now, limits.stack, left, row)
}
