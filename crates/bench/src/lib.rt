// A port of parts of src/verify.rs of metamath-rs 0.3.9 (verify_segment), changed (see NOTICE).
// The calls of the bench: any bytes as frame file, any statement number, any size of lent memory.
#![tactic(auto)]

ghost use Rattle.std.specs.Prelude.{◌≡◌, length};
ghost use Rattle.frames.specs.Database.{database};
ghost use Rattle.machine.specs.Bench.{answer, answer_good};
ghost use Rattle.resolve.specs.Filed.{Filed};
ghost use Rattle.told.specs.Says.{Says, room_lent};
ghost use Rattle.bench.specs.Calls.{Verified};

use clearing::clear;
use filecheck::check;
use frames::numbers::StatementNo;
use label_index::fill;
use proving::statement::answer_statement;
use proving::{IMAGE_SETS, LABEL_WORDS, LOCAL_LABELS, OFFSETS, PAIR_SETS, SEATS};
use told::Told;

// One statement of a checked file, with tables of our own.
// The tables stay slices: `proving::statement::answer_statement`, which docs/DECISIONS.md names, asks only for their sizes, and a struct of arrays would ask more.
fn verify_checked(
    file: &[u8],
    symbols: &[u32],
    statements: &[u32],
    p: StatementNo,
    pool: &mut [u8],
    stack: &mut [u64],
    places: &mut [u64],
) -> Told
    requires { Filed file.now symbols.now statements.now }
    ensures { Says (answer_good (database file.now) p.0 (room_lent (length pool.old) (length stack.old) (length places.old))) result }
{
    let mut table = [0; PAIR_SETS];
    let mut seats = [0; SEATS];
    let mut froms = [0; OFFSETS];
    let mut tos = [0; OFFSETS];
    let mut sets = [0; IMAGE_SETS];
    let mut numbers = [0; OFFSETS];
    let mut locals = [0; LOCAL_LABELS];
    let mut labels = [0; LABEL_WORDS];
    fill(file, statements, &mut labels);
    answer_statement(
        file,
        symbols,
        statements,
        &labels,
        p,
        &mut table,
        &mut seats,
        &mut froms,
        &mut tos,
        &mut sets,
        &mut numbers,
        pool,
        stack,
        places,
        &mut locals,
    )
}

// The file is checked, then the statement is answered.
fn verify_file(
    file: &[u8],
    p: usize,
    pool: &mut [u8],
    stack: &mut [u64],
    places: &mut [u64],
) -> Told
    ensures { Says (answer file.now p (room_lent (length pool.old) (length stack.old) (length places.old))) result }
{
    let mut symbols = [0; OFFSETS];
    let mut statements = [0; OFFSETS];
    match check(file, &mut symbols, &mut statements) {
        Err(away) => Told {
            number: frames::number(away.why),
            place: away.place,
            steps: 0,
        },
        Ok(sizes) => {
            verify_checked(
                file,
                &symbols[..sizes.symbols],
                &statements[..sizes.statements],
                StatementNo(p),
                pool,
                stack,
                places,
            )
        }
    }
}

// One statement: the file is checked, the proof is run, and all that was lent is cleared.
pub fn verify(file: &[u8], p: usize, pool: &mut [u8], stack: &mut [u64], places: &mut [u64]) -> Told
    ensures { Verified file.now p pool.old stack.old places.old pool.new stack.new places.new result }
{
    let told = verify_file(file, p, pool, stack, places);
    clear(pool, 0);
    clear(stack, 0);
    clear(places, 0);
    told
}
