// Replays the list of runs on standard input: hands each call of the list to the bench, with exactly so much memory lent, and writes `NUMBER PLACE STEPS`.
// All that is lent is set to other bytes than zero before a call; where one is left after it, `not zero` is written. The list's form is told in
// tests/bench_replay/make.py, which writes it and the answers that are expected.
#![tactic(auto)]

use replaying::{
    Call, Out, PLACES, POOL, Run, SOIL_BYTE, SOIL_WORD, STACK, STDIN_FILENO, each_call, filled,
    number,
};
use std::io::Write;

// One call of the list: a run, and a number behind it that is no part of the run.
struct Verify(Run);

impl Call for Verify {
    fn read(list: &mut &[u8]) -> Verify {
        let run = Run::read(list);
        number(list);
        Verify(run)
    }
}

// Writes what the bench answers for a statement, with these buffers lent.
fn ask(file: &[u8], statement: usize, pool: &mut [u8], stack: &mut [u64], places: &mut [u64]) {
    pool.fill(SOIL_BYTE);
    stack.fill(SOIL_WORD);
    places.fill(SOIL_WORD);
    let told = bench::verify(file, statement, pool, stack, places);
    let _ = writeln!(Out, "{} {} {}", told.number, told.place, told.steps);
    if pool.iter().any(|&b| b != 0)
        || stack.iter().any(|&w| w != 0)
        || places.iter().any(|&w| w != 0)
    {
        let _ = writeln!(Out, "not zero");
    }
}

// One run of the list, with exactly so much lent. The buffers are no struct: of one behind a `&mut` the check lends one field at a time.
fn answer(
    file: &[u8],
    run: Run,
    pool: &mut [u8; POOL],
    stack: &mut [u64; STACK],
    places: &mut [u64; PLACES],
) {
    ask(
        file,
        run.statement,
        &mut pool[..run.pool],
        &mut stack[..run.stack],
        &mut places[..run.places],
    );
}

fn main() {
    let mut list: [u8; 1048576] = filled(0);
    let n = io::read_full(STDIN_FILENO, &mut list);
    let mut pool = [0; POOL];
    let mut stack = [0; STACK];
    let mut places = [0; PLACES];
    each_call(&list[..n], |file, Verify(run)| {
        answer(file, run, &mut pool, &mut stack, &mut places)
    });
}
