// A port of parts of src/verify.rs of metamath-rs 0.3.9 (verify_proof), changed (see NOTICE).
// The bytes of a proof's text: a letter is judged at once, a token at the divider after it.
#![tactic(auto)]

ghost use Rattle.std.specs.Prelude.{◌≡◌, true, ◌+◌, ◌≤◌, ◌<◌, length, get_or};
ghost use Rattle.machine.specs.Reading as reading;
ghost use Rattle.machine.specs.Run.{k_limit};
ghost use Rattle.run.specs.Running.{env, tables, Running};
ghost use Rattle.run.specs.Reads.{Low};
ghost use Rattle.run_bytes.specs.Bytes.{After, ReadsByte, ReadsText, Plain};
ghost use Rattle.run.specs.declared.Mode.TheVariants.{Letters};
ghost use Rattle.label_index.specs.Labelled.{Labelled};

use frames::numbers::StatementNo;
use machine::Refusal;
use memory::{Counts, Limits};
use run::{Mode, Read};
use run_letters::on_letter;
use run_tokens::on_token;
use tokens::divider;

// Where a run stands: how it reads on, where the token so far begins in the text, the completed steps, and how much of the memory is used.
#[derive(Clone, Copy)]
pub struct State {
    pub mode: Mode,
    pub token: usize,
    pub steps: usize,
    pub counts: Counts,
}

// Why a run is over, where, and after how many steps.
#[derive(Clone, Copy, Debug, PartialEq, Eq)]
pub struct Stopped {
    pub why: Refusal,
    pub place: usize,
    pub steps: usize,
}

// The run goes on, or it is over.
pub type Next = Result<State, Stopped>;

// What was read goes on after the byte at `at`, with no token begun.
fn after(read: Read, at: usize, place: usize) -> Next
    requires { at < 1000000 }
    ensures { After read at place result }
{
    match read {
        Ok(going) => Ok(State {
            mode: going.mode,
            token: at + 1,
            steps: going.steps,
            counts: going.counts,
        }),
        Err(halted) => Err(Stopped {
            why: halted.why,
            place,
            steps: halted.steps,
        }),
    }
}

// The byte at `at` is a letter.
fn letter_byte(
    file: &[u8],
    symbols: &[u32],
    statements: &[u32],
    p: StatementNo,
    text: &[u8],
    table: &[u64],
    seats: &mut [u32],
    froms: &mut [u32],
    tos: &mut [u32],
    sets: &mut [u64],
    numbers: &mut [u32],
    pool: &mut [u8],
    stack: &mut [u64],
    places: &mut [u64],
    locals: &mut [u32],
    tree: &mut [u64],
    limits: Limits,
    s: State,
    k: usize,
    saves: bool,
    at: usize,
) -> Next
    requires running { Running (env file.now symbols.now statements.now p.0 text.now table.now limits) (tables seats.old froms.old tos.old sets.old numbers.old pool.old stack.old places.old locals.old tree.old) s.counts }
    requires low { ((k < k_limit) × (s.steps ≤ 65536)) × ((s.mode ≡ Letters k saves) × (at < length text.now)) }
    ensures { ReadsByte (env file.now symbols.now statements.now p.0 text.now table.now limits) (tables seats.old froms.old tos.old sets.old numbers.old pool.old stack.old places.old locals.old tree.old) (tables seats.new froms.new tos.new sets.new numbers.new pool.new stack.new places.new locals.new tree.new) s at (get_or text.now at 0) result }
{
    let c = s.counts;
    let b = text[at];
    let read = on_letter(
        file, symbols, statements, p, text, table, seats, froms, tos, sets, numbers, pool, stack,
        places, locals, tree, c, limits, k, saves, b, s.steps,
    );
    after(read, at, at)
}

// The byte at `at` is a divider, and a token stands before it.
fn end_token(
    file: &[u8],
    symbols: &[u32],
    statements: &[u32],
    labels: &[u32],
    p: StatementNo,
    text: &[u8],
    table: &[u64],
    seats: &mut [u32],
    froms: &mut [u32],
    tos: &mut [u32],
    sets: &mut [u64],
    numbers: &mut [u32],
    pool: &mut [u8],
    stack: &mut [u64],
    places: &mut [u64],
    locals: &mut [u32],
    tree: &mut [u64],
    limits: Limits,
    s: State,
    at: usize,
) -> Next
    requires labelled { Labelled file.now statements.now labels.now }
    requires running { Running (env file.now symbols.now statements.now p.0 text.now table.now limits) (tables seats.old froms.old tos.old sets.old numbers.old pool.old stack.old places.old locals.old tree.old) s.counts }
    requires low { ((Low s.mode × (s.steps ≤ 65536)) × Plain s.mode) × (((s.token < at) × (at < length text.now)) × (reading.divider (get_or text.now at 0) ≡ true)) }
    ensures { ReadsByte (env file.now symbols.now statements.now p.0 text.now table.now limits) (tables seats.old froms.old tos.old sets.old numbers.old pool.old stack.old places.old locals.old tree.old) (tables seats.new froms.new tos.new sets.new numbers.new pool.new stack.new places.new locals.new tree.new) s at (get_or text.now at 0) result }
{
    let c = s.counts;
    let from = s.token;
    let read = on_token(
        s.mode, file, symbols, statements, labels, p, text, table, seats, froms, tos, sets,
        numbers, pool, stack, places, locals, tree, from, at, c, limits, s.steps,
    );
    after(read, at, from)
}

// The byte at `at`, before the letters: a divider ends the token, any other byte is one more of it.
fn plain_byte(
    file: &[u8],
    symbols: &[u32],
    statements: &[u32],
    labels: &[u32],
    p: StatementNo,
    text: &[u8],
    table: &[u64],
    seats: &mut [u32],
    froms: &mut [u32],
    tos: &mut [u32],
    sets: &mut [u64],
    numbers: &mut [u32],
    pool: &mut [u8],
    stack: &mut [u64],
    places: &mut [u64],
    locals: &mut [u32],
    tree: &mut [u64],
    limits: Limits,
    s: State,
    at: usize,
) -> Next
    requires labelled { Labelled file.now statements.now labels.now }
    requires running { Running (env file.now symbols.now statements.now p.0 text.now table.now limits) (tables seats.old froms.old tos.old sets.old numbers.old pool.old stack.old places.old locals.old tree.old) s.counts }
    requires low { ((Low s.mode × (s.steps ≤ 65536)) × Plain s.mode) × ((s.token ≤ at) × (at < length text.now)) }
    ensures { ReadsByte (env file.now symbols.now statements.now p.0 text.now table.now limits) (tables seats.old froms.old tos.old sets.old numbers.old pool.old stack.old places.old locals.old tree.old) (tables seats.new froms.new tos.new sets.new numbers.new pool.new stack.new places.new locals.new tree.new) s at (get_or text.now at 0) result }
{
    if divider(text[at]) {
        if s.token < at {
            return end_token(
                file, symbols, statements, labels, p, text, table, seats, froms, tos, sets,
                numbers, pool, stack, places, locals, tree, limits, s, at,
            );
        }
        return Ok(State { token: at + 1, ..s });
    }
    Ok(s)
}

// The byte at `at`.
fn on_byte(
    file: &[u8],
    symbols: &[u32],
    statements: &[u32],
    labels: &[u32],
    p: StatementNo,
    text: &[u8],
    table: &[u64],
    seats: &mut [u32],
    froms: &mut [u32],
    tos: &mut [u32],
    sets: &mut [u64],
    numbers: &mut [u32],
    pool: &mut [u8],
    stack: &mut [u64],
    places: &mut [u64],
    locals: &mut [u32],
    tree: &mut [u64],
    limits: Limits,
    s: State,
    at: usize,
) -> Next
    requires labelled { Labelled file.now statements.now labels.now }
    requires running { Running (env file.now symbols.now statements.now p.0 text.now table.now limits) (tables seats.old froms.old tos.old sets.old numbers.old pool.old stack.old places.old locals.old tree.old) s.counts }
    requires low { (Low s.mode × (s.steps ≤ 65536)) × ((s.token ≤ at) × (at < length text.now)) }
    ensures { ReadsByte (env file.now symbols.now statements.now p.0 text.now table.now limits) (tables seats.old froms.old tos.old sets.old numbers.old pool.old stack.old places.old locals.old tree.old) (tables seats.new froms.new tos.new sets.new numbers.new pool.new stack.new places.new locals.new tree.new) s at (get_or text.now at 0) result }
{
    match s.mode {
        Mode::Letters { k, can_save } => letter_byte(
            file, symbols, statements, p, text, table, seats, froms, tos, sets, numbers, pool,
            stack, places, locals, tree, limits, s, k, can_save, at,
        ),
        _ => plain_byte(
            file, symbols, statements, labels, p, text, table, seats, froms, tos, sets, numbers,
            pool, stack, places, locals, tree, limits, s, at,
        ),
    }
}

// All bytes of the text, one after another.
pub fn read_text(
    file: &[u8],
    symbols: &[u32],
    statements: &[u32],
    labels: &[u32],
    p: StatementNo,
    text: &[u8],
    table: &[u64],
    seats: &mut [u32],
    froms: &mut [u32],
    tos: &mut [u32],
    sets: &mut [u64],
    numbers: &mut [u32],
    pool: &mut [u8],
    stack: &mut [u64],
    places: &mut [u64],
    locals: &mut [u32],
    tree: &mut [u64],
    limits: Limits,
    start: State,
) -> Next
    requires labelled { Labelled file.now statements.now labels.now }
    requires running { Running (env file.now symbols.now statements.now p.0 text.now table.now limits) (tables seats.old froms.old tos.old sets.old numbers.old pool.old stack.old places.old locals.old tree.old) start.counts }
    requires low { (Low start.mode × (start.steps ≡ 0)) × (start.token ≡ 0) }
    ensures { ReadsText (env file.now symbols.now statements.now p.0 text.now table.now limits) (tables seats.old froms.old tos.old sets.old numbers.old pool.old stack.old places.old locals.old tree.old) (tables seats.new froms.new tos.new sets.new numbers.new pool.new stack.new places.new locals.new tree.new) start result }
{
    let mut s = start;
    for i in 0..text.len() {
        s = on_byte(
            file, symbols, statements, labels, p, text, table, seats, froms, tos, sets, numbers,
            pool, stack, places, locals, tree, limits, s, i,
        )?;
    }
    Ok(s)
}
