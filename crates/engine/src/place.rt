// A port of parts of src/verify.rs of metamath-rs 0.3.9 (execute_step), changed (see NOTICE).
// A step by its place: it recalls what the place holds, or applies the assertion that it names.
ghost use Rattle.std.specs.Prelude.{◌≡◌, ◌*◌, ◌≤◌, ◌<◌, length};
ghost use Rattle.apply.specs.Hyps.{Ranged};
ghost use Rattle.engine.specs.Place.{marked_row, RunsPlace};

use apply::step::execute_step;
use frames::numbers::{PlaceNo, StatementNo};
use machine::Refusal;
use memory::stack::push;
use memory::table::{Row, row_at};
use memory::{Counts, Limits, Outcome};

// A row with this mark.
fn marked(row: Row, tag: usize, end: usize) -> Row
    ensures { result ≡ marked_row row tag end }
{
    Row { tag, end, ..row }
}

// The step at place k, with a mark or none: 31, 32 to 38, 43, 45.
pub fn run_place(
    file: &[u8],
    symbols: &[u32],
    statements: &[u32],
    text: &[u8],
    table: &[u64],
    seats: &mut [u32],
    froms: &mut [u32],
    tos: &mut [u32],
    sets: &mut [u64],
    pool: &mut [u8],
    stack: &mut [u64],
    tree: &mut [u64],
    places: &[u64],
    k: PlaceNo,
    c: Counts,
    limits: Limits,
    tag: usize,
    end: usize,
) -> Outcome
    requires used_le_pool { ((c.used ≤ limits.pool) × (limits.pool ≤ length pool.old)) × ((10 * limits.stack ≤ length stack.old) × (limits.stack ≤ 1024)) }
    requires ranged { ((Ranged froms.old tos.old c.used × (length froms.old ≤ length tos.old)) × ((c.used < 4294967296) × ((c.depth ≤ 1024) × (64 ≤ length seats.old)))) × (c.places ≤ 4096) }
    requires recorded { length tree.old ≤ 131072 }
    ensures { RunsPlace file.now symbols.now statements.now text.now table.now froms.old tos.old sets.old pool.old stack.old tree.old places.now k.0 c limits tag end froms.new tos.new sets.new pool.new stack.new tree.new result }
{
    let n = k.0;
    if c.places <= n {
        return Err(Refusal::StepOutOfRange);
    }
    let row = row_at(places, n);
    if row.tag == 0 {
        return push(stack, c, limits.stack, c.depth, marked(row, tag, end));
    }
    execute_step(
        file,
        symbols,
        statements,
        StatementNo(row.head),
        text,
        table,
        seats,
        froms,
        tos,
        sets,
        pool,
        stack,
        tree,
        c,
        limits,
        tag,
        end,
    )
}

// The step at place k, with no mark: 31, 32 to 38, 43, 45. The letters have this function to themselves, so that it is compiled into the loop over them.
pub fn run_unmarked(
    file: &[u8],
    symbols: &[u32],
    statements: &[u32],
    text: &[u8],
    table: &[u64],
    seats: &mut [u32],
    froms: &mut [u32],
    tos: &mut [u32],
    sets: &mut [u64],
    pool: &mut [u8],
    stack: &mut [u64],
    tree: &mut [u64],
    places: &[u64],
    k: PlaceNo,
    c: Counts,
    limits: Limits,
) -> Outcome
    requires used_le_pool { ((c.used ≤ limits.pool) × (limits.pool ≤ length pool.old)) × ((10 * limits.stack ≤ length stack.old) × (limits.stack ≤ 1024)) }
    requires ranged { ((Ranged froms.old tos.old c.used × (length froms.old ≤ length tos.old)) × ((c.used < 4294967296) × ((c.depth ≤ 1024) × (64 ≤ length seats.old)))) × (c.places ≤ 4096) }
    requires recorded { length tree.old ≤ 131072 }
    ensures { RunsPlace file.now symbols.now statements.now text.now table.now froms.old tos.old sets.old pool.old stack.old tree.old places.now k.0 c limits 0 0 froms.new tos.new sets.new pool.new stack.new tree.new result }
{
    let n = k.0;
    if c.places <= n {
        return Err(Refusal::StepOutOfRange);
    }
    let row = row_at(places, n);
    if row.tag == 0 {
        return push(stack, c, limits.stack, c.depth, marked(row, 0, 0));
    }
    execute_step(
        file,
        symbols,
        statements,
        StatementNo(row.head),
        text,
        table,
        seats,
        froms,
        tos,
        sets,
        pool,
        stack,
        tree,
        c,
        limits,
        0,
        0,
    )
}
