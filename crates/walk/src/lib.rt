// A port of parts of src/verify.rs of metamath-rs 0.3.9 (verify_segment), changed (see NOTICE).
// The walk over all $p of a file: the file is checked once, and each $p is answered in file order.
#![tactic(auto)]

ghost use Rattle.std.specs.Prelude.{◌≡◌, ◌≤◌, ◌<◌, length};
ghost use Rattle.resolve.specs.Filed.{Filed};
ghost use Rattle.proving.specs.Ours.{Ours};
ghost use Rattle.bench.specs.Calls.{room_in};
ghost use Rattle.walk.specs.Walk.{WalksAll, WalksFile, NextAnswered, AllAnswered};
ghost use Rattle.label_index.specs.Labelled.{Labelled};

use answers::pack;
use clearing::clear;
use filecheck::check;
use frames::numbers::StatementNo;
use frames::{TurnedAway, fields};
use label_index::fill;
use proving::statement::answer_statement;
use proving::{IMAGE_SETS, LABEL_WORDS, LOCAL_LABELS, OFFSETS, PAIR_SETS, SEATS};

// All $p of a file are answered, so many; or the file is turned away.
pub type Walked = Result<usize, TurnedAway>;

// Statement p: where it is a $p, its answer is laid at `count`, if there is room, and it is counted.
// The tables stay slices: `proving::statement::answer_statement`, which docs/DECISIONS.md names, asks only for their sizes, and a struct of arrays would ask more.
fn answer_next(
    file: &[u8],
    symbols: &[u32],
    statements: &[u32],
    labels: &[u32],
    p: StatementNo,
    table: &mut [u64],
    seats: &mut [u32],
    froms: &mut [u32],
    tos: &mut [u32],
    sets: &mut [u64],
    numbers: &mut [u32],
    pool: &mut [u8],
    stack: &mut [u64],
    places: &mut [u64],
    locals: &mut [u32],
    answers: &mut [u64],
    count: usize,
) -> usize
    requires labelled { Labelled file.now statements.now labels.now }
    requires filed { Filed file.now symbols.now statements.now }
    requires ours { Ours table.old seats.old froms.old tos.old sets.old numbers.old locals.old }
    requires few { (p.0 < length statements.now) × (count ≤ 4096) }
    ensures { NextAnswered file.now (room_in pool.old stack.old places.old) p.0 count answers.old answers.new result }
{
    let at = fields::statement_offset(statements, p);
    if fields::kind(file, at) == 5 {
        if count < answers.len() {
            let told = answer_statement(
                file, symbols, statements, labels, p, table, seats, froms, tos, sets, numbers,
                pool, stack, places, locals,
            );
            answers[count] = pack(told.number, told.place, told.steps);
            return count + 1;
        }
        return count + 1;
    }
    count
}

// All statements of a checked file, in file order.
fn answer_all(
    file: &[u8],
    symbols: &[u32],
    statements: &[u32],
    labels: &[u32],
    table: &mut [u64],
    seats: &mut [u32],
    froms: &mut [u32],
    tos: &mut [u32],
    sets: &mut [u64],
    numbers: &mut [u32],
    pool: &mut [u8],
    stack: &mut [u64],
    places: &mut [u64],
    locals: &mut [u32],
    answers: &mut [u64],
) -> usize
    requires labelled { Labelled file.now statements.now labels.now }
    requires filed { Filed file.now symbols.now statements.now }
    requires ours { Ours table.old seats.old froms.old tos.old sets.old numbers.old locals.old }
    ensures { AllAnswered file.now (room_in pool.old stack.old places.old) answers.old answers.new result }
{
    let mut count = 0;
    for i in 0..statements.len() {
        count = answer_next(
            file,
            symbols,
            statements,
            labels,
            StatementNo(i),
            table,
            seats,
            froms,
            tos,
            sets,
            numbers,
            pool,
            stack,
            places,
            locals,
            answers,
            count,
        );
    }
    count
}

// All $p of a checked file, with tables of our own.
fn walk_checked(
    file: &[u8],
    symbols: &[u32],
    statements: &[u32],
    pool: &mut [u8],
    stack: &mut [u64],
    places: &mut [u64],
    answers: &mut [u64],
) -> usize
    requires { Filed file.now symbols.now statements.now }
    ensures { AllAnswered file.now (room_in pool.old stack.old places.old) answers.old answers.new result }
{
    let mut table = [0; PAIR_SETS];
    let mut seats = [0; SEATS];
    let mut froms = [0; OFFSETS];
    let mut tos = [0; OFFSETS];
    let mut sets = [0; IMAGE_SETS];
    let mut numbers = [0; OFFSETS];
    let mut locals = [0; LOCAL_LABELS];
    let mut labels = [0; LABEL_WORDS];
    fill(file, statements, &mut labels);
    answer_all(
        file,
        symbols,
        statements,
        &labels,
        &mut table,
        &mut seats,
        &mut froms,
        &mut tos,
        &mut sets,
        &mut numbers,
        pool,
        stack,
        places,
        &mut locals,
        answers,
    )
}

// The file is checked, then all its $p are answered.
fn walk_file(
    file: &[u8],
    pool: &mut [u8],
    stack: &mut [u64],
    places: &mut [u64],
    answers: &mut [u64],
) -> Walked
    ensures { WalksFile file.now (room_in pool.old stack.old places.old) answers.old answers.new result }
{
    let mut symbols = [0; OFFSETS];
    let mut statements = [0; OFFSETS];
    let sizes = check(file, &mut symbols, &mut statements)?;
    Ok(walk_checked(
        file,
        &symbols[..sizes.symbols],
        &statements[..sizes.statements],
        pool,
        stack,
        places,
        answers,
    ))
}

// All $p of a file: the file is checked once, each $p is answered in file order as `bench::verify` would answer it, and all that was lent is cleared.
// Each answer is one number (`answers::pack`); a file has at most 4,096, and where `answers` is shorter only so many are worked out.
pub fn verify_all(
    file: &[u8],
    pool: &mut [u8],
    stack: &mut [u64],
    places: &mut [u64],
    answers: &mut [u64],
) -> Walked
    ensures { WalksAll file.now pool.old stack.old places.old answers.old pool.new stack.new places.new answers.new result }
{
    let walked = walk_file(file, pool, stack, places, answers);
    clear(pool, 0);
    clear(stack, 0);
    clear(places, 0);
    walked
}
