// A port of parts of src/verify.rs of metamath-rs 0.3.9 (the letters in verify_proof), changed (see NOTICE).
// The letters of a compressed proof.
#![tactic(auto)]

ghost use Rattle.std.specs.Prelude.{◌≤◌, ◌<◌};
ghost use Rattle.machine.specs.Run.{k_limit};
ghost use Rattle.run.specs.Running.{env, tables, Running};
ghost use Rattle.run.specs.Letters.{LastLetter, ReadsLetter};
ghost use Rattle.machine.specs.Reading as reading;

use engine::place::run_unmarked;
use frames::numbers::{PlaceNo, StatementNo};
use machine::Letter;
use memory::{Counts, Limits};
use run::letters::{after_last, higher_letter, incomplete_letter, save_letter};
use run::{Going, Mode, Read};
use tokens::letter;

// `A`..`T`: the step at place 20k + d.
fn last_letter(
    file: &[u8],
    symbols: &[u32],
    statements: &[u32],
    p: StatementNo,
    text: &[u8],
    table: &[u64],
    seats: &mut [u32],
    froms: &mut [u32],
    tos: &mut [u32],
    sets: &mut [u64],
    numbers: &[u32],
    pool: &mut [u8],
    stack: &mut [u64],
    places: &[u64],
    locals: &[u32],
    tree: &mut [u64],
    c: Counts,
    limits: Limits,
    k: usize,
    d: usize,
    steps: usize,
) -> Read
    requires running { Running (env file.now symbols.now statements.now p.0 text.now table.now limits) (tables seats.old froms.old tos.old sets.old numbers.now pool.old stack.old places.now locals.now tree.old) c }
    requires low { (k < k_limit) × ((d < 20) × (steps ≤ 65536)) }
    ensures { LastLetter (env file.now symbols.now statements.now p.0 text.now table.now limits) (tables seats.old froms.old tos.old sets.old numbers.now pool.old stack.old places.now locals.now tree.old) (tables seats.new froms.new tos.new sets.new numbers.now pool.new stack.new places.now locals.now tree.new) c k d steps result }
{
    let outcome = run_unmarked(
        file,
        symbols,
        statements,
        text,
        table,
        seats,
        froms,
        tos,
        sets,
        pool,
        stack,
        tree,
        places,
        PlaceNo(20 * k + d),
        c,
        limits,
    );
    after_last(outcome, steps)
}

// A letter of a compressed proof: a digit, a step, a save, an unknown step, or a byte that is ignored.
pub fn on_letter(
    file: &[u8],
    symbols: &[u32],
    statements: &[u32],
    p: StatementNo,
    text: &[u8],
    table: &[u64],
    seats: &mut [u32],
    froms: &mut [u32],
    tos: &mut [u32],
    sets: &mut [u64],
    numbers: &[u32],
    pool: &mut [u8],
    stack: &mut [u64],
    places: &mut [u64],
    locals: &[u32],
    tree: &mut [u64],
    c: Counts,
    limits: Limits,
    k: usize,
    saves: bool,
    b: u8,
    steps: usize,
) -> Read
    requires running { Running (env file.now symbols.now statements.now p.0 text.now table.now limits) (tables seats.old froms.old tos.old sets.old numbers.now pool.old stack.old places.old locals.now tree.old) c }
    requires low { (k < k_limit) × (steps ≤ 65536) }
    ensures { ReadsLetter (env file.now symbols.now statements.now p.0 text.now table.now limits) (tables seats.old froms.old tos.old sets.old numbers.now pool.old stack.old places.old locals.now tree.old) (tables seats.new froms.new tos.new sets.new numbers.now pool.new stack.new places.new locals.now tree.new) c k saves steps (reading.letter b) result }
{
    match letter(b) {
        Letter::Last(d) => last_letter(
            file, symbols, statements, p, text, table, seats, froms, tos, sets, numbers, pool,
            stack, places, locals, tree, c, limits, k, d, steps,
        ),
        Letter::Higher(e) => higher_letter(c, k, e, steps),
        Letter::Save => save_letter(stack, places, c, limits.places, k, saves, steps),
        Letter::Incomplete => incomplete_letter(k, steps),
        Letter::Ignored => Ok(Going {
            mode: Mode::Letters { k, can_save: saves },
            counts: c,
            steps,
        }),
    }
}
