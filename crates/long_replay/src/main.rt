// Replays the list of long forms on standard input: hands each call of the list to the long-form call, with exactly so much memory lent, and writes `NUMBER PLACE STEPS`
// and, where NUMBER is 0, the text. All that is lent is set to other bytes than zero before a call; where one is left after it in what must be zero, `not zero` is written, and where
// the output holds something else after the text, `changed`. The list's form is told in tests/long_replay/make.py, which writes it and the answers that are expected.
#![tactic(auto)]

ghost use Rattle.std.specs.Prelude.{◌≤◌};

use long::long_form;
use replaying::{
    Call, Out, PLACES, POOL, Run, SOIL_BYTE, SOIL_WORD, STACK, STDIN_FILENO, each_call, filled,
    number, part,
};
use std::io::Write;
use told::Told;

// The most words of the tree and bytes of the output that are lent.
const TREE: usize = 131072;

const OUTPUT: usize = 65536;

// One call of the list: a run, and how much is lent for its long form.
#[derive(Clone, Copy)]
struct LongForm {
    run: Run,
    tree: usize,
    output: usize,
    ghost in_room: { (tree ≤ 131072) × (output ≤ 65536) },
}

impl Call for LongForm {
    fn read(list: &mut &[u8]) -> LongForm {
        LongForm {
            run: Run::read(list),
            tree: TREE.min(number(list) as usize),
            output: OUTPUT.min(number(list) as usize),
        }
    }
}

// Where something is left in what must be zero, a line says so.
fn see_clean(pool: &[u8], stack: &[u64], places: &[u64], tree: &[u64]) {
    if pool.iter().any(|&b| b != 0)
        || stack.iter().any(|&w| w != 0)
        || places.iter().any(|&w| w != 0)
        || tree.iter().any(|&w| w != 0)
    {
        let _ = writeln!(Out, "not zero");
    }
}

// Writes the answer, and the text that stands in front of the output. Where the output after it was changed, a line says so.
fn tell(told: Told, output: &[u8]) {
    let _ = writeln!(Out, "{} {} {}", told.number, told.place, told.steps);
    let mut rest = output;
    if told.number == 0 {
        let _ = Out.write_all(part(&mut rest, told.place));
        let _ = writeln!(Out);
    }
    if rest.iter().any(|&b| b != SOIL_BYTE) {
        let _ = writeln!(Out, "changed");
    }
}

// One call for a statement, with these buffers lent.
fn ask(
    file: &[u8],
    statement: usize,
    pool: &mut [u8],
    stack: &mut [u64],
    places: &mut [u64],
    tree: &mut [u64],
    output: &mut [u8],
) {
    pool.fill(SOIL_BYTE);
    stack.fill(SOIL_WORD);
    places.fill(SOIL_WORD);
    tree.fill(SOIL_WORD);
    output.fill(SOIL_BYTE);
    let told = long_form(file, statement, pool, stack, places, tree, output);
    tell(told, output);
    see_clean(pool, stack, places, tree);
}

// One call of the list, with exactly so much lent. The buffers are no struct: of one behind a `&mut` the check lends one field at a time.
fn answer(
    file: &[u8],
    call: LongForm,
    pool: &mut [u8; POOL],
    stack: &mut [u64; STACK],
    places: &mut [u64; PLACES],
    tree: &mut [u64; TREE],
    output: &mut [u8; OUTPUT],
) {
    let run = call.run;
    ask(
        file,
        run.statement,
        &mut pool[..run.pool],
        &mut stack[..run.stack],
        &mut places[..run.places],
        &mut tree[..call.tree],
        &mut output[..call.output],
    );
}

fn main() {
    let mut list: [u8; 1048576] = filled(0);
    let n = io::read_full(STDIN_FILENO, &mut list);
    let mut pool = [0; POOL];
    let mut stack = [0; STACK];
    let mut places = [0; PLACES];
    let mut tree = [0; TREE];
    let mut output = [0; OUTPUT];
    each_call(&list[..n], |file, call| {
        answer(
            file,
            call,
            &mut pool,
            &mut stack,
            &mut places,
            &mut tree,
            &mut output,
        )
    });
}
