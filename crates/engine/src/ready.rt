// A port of parts of src/verify.rs of metamath-rs 0.3.9 (prepare_hypothesis, verify_proof's preloading), changed (see NOTICE).
// A $f or $e made ready and put to use at once: it takes a place, or it is pushed.
ghost use Rattle.std.specs.Prelude.{◌*◌, ◌≤◌, ◌<◌, length};
ghost use Rattle.engine.specs.Ready.{LeafRow, PlacesHypothesis, PushesHypothesis};

use crate::hypothesis::prepare_hypothesis;
use crate::raw_set::raw_set;
use frames::fields;
use memory::stack::{add_place, push};
use memory::table::Row;
use memory::{Counts, Limits, Outcome};

// The row of the hypothesis at `at`, whose symbols stand in the pool from `from` up to `to`. The word of its derivation is twice its offset.
fn leaf_row(
    file: &[u8],
    symbols: &[u32],
    numbers: &[u32],
    at: u32,
    from: usize,
    to: usize,
    tag: usize,
    end: usize,
) -> Row
    ensures { LeafRow file.now symbols.now numbers.now at from to tag end result }
{
    let typecode = fields::typecode(file, at);
    let vars = raw_set(file, symbols, numbers, at);
    Row {
        head: typecode.0,
        from: from,
        to: to,
        tag: tag,
        end: end,
        node: 2 * at as usize,
        vars: vars,
    }
}

// The hypothesis at `at` takes the next place: 44, 43, 46.
pub fn place_hypothesis(
    file: &[u8],
    symbols: &[u32],
    at: u32,
    numbers: &mut [u32],
    pool: &mut [u8],
    places: &mut [u64],
    c: Counts,
    limits: Limits,
) -> Outcome
    requires count_bound { (c.count < 1000) × ((c.used ≤ limits.pool) × (limits.pool ≤ length pool.old)) }
    requires places { (10 * limits.places ≤ length places.old) × (limits.places ≤ 4096) }
    ensures { PlacesHypothesis file.now symbols.now at numbers.old pool.old places.old c limits numbers.new pool.new places.new result }
{
    let used = c.used;
    let ready = prepare_hypothesis(file, symbols, at, numbers, c.count, pool, used, limits.pool)?;
    let row = leaf_row(file, symbols, numbers, at, used, ready.used, 0, 0);
    let now = Counts {
        used: ready.used,
        count: ready.count,
        ..c
    };
    add_place(places, now, limits.places, row)
}

// The hypothesis at `at` is pushed, with a mark or none: 44, 43, 45.
// A twin of `place_hypothesis` up to its last line: a function for both would hand over a row and the counts, with a definition of its own, and be no plainer.
pub fn push_hypothesis(
    file: &[u8],
    symbols: &[u32],
    at: u32,
    numbers: &mut [u32],
    pool: &mut [u8],
    stack: &mut [u64],
    c: Counts,
    limits: Limits,
    tag: usize,
    end: usize,
) -> Outcome
    requires count_bound { (c.count < 1000) × ((c.used ≤ limits.pool) × (limits.pool ≤ length pool.old)) }
    requires stack { (10 * limits.stack ≤ length stack.old) × (limits.stack ≤ 1024) }
    ensures { PushesHypothesis file.now symbols.now at numbers.old pool.old stack.old c limits tag end numbers.new pool.new stack.new result }
{
    let from = c.used;
    let ready = prepare_hypothesis(file, symbols, at, numbers, c.count, pool, from, limits.pool)?;
    let leaf = leaf_row(file, symbols, numbers, at, from, ready.used, tag, end);
    let next = Counts {
        used: ready.used,
        count: ready.count,
        ..c
    };
    push(stack, next, limits.stack, c.depth, leaf)
}
