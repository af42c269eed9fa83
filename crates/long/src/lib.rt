// The long-form call: any bytes as frame file, any statement number, any size of what is lent.
#![tactic(auto)]

ghost use Rattle.std.specs.Prelude.{◌≡◌, min, length};
ghost use Rattle.frames.specs.Database.{database};
ghost use Rattle.machine.specs.Bench.{answer_good};
ghost use Rattle.resolve.specs.Filed.{Filed};
ghost use Rattle.told.specs.Says.{room_lent};
ghost use Rattle.postorder.specs.LongForm.{long_of, long_answer};
ghost use Rattle.long.specs.Calls.{SaysLong, WritesLongForm};

use crate::writing::{ENTRIES, tell_long};
use clearing::clear;
use filecheck::check;
use frames::fields;
use frames::numbers::StatementNo;
use proving::OFFSETS;
use proving::statement::prove_statement;
use told::Told;

pub mod writing;

// Statement p of a checked file: 8 where it is no $p or there is none, else the long form of its proof.
pub fn long_statement(
    file: &[u8],
    symbols: &[u32],
    statements: &[u32],
    p: StatementNo,
    pool: &mut [u8],
    stack: &mut [u64],
    places: &mut [u64],
    tree: &mut [u64],
    lent: usize,
    output: &mut [u8],
) -> Told
    requires filed { Filed file.now symbols.now statements.now }
    requires entries { length tree.old ≡ min lent 131072 }
    ensures { SaysLong (long_of (database file.now) lent (length output.old) (answer_good (database file.now) p.0 (room_lent (length pool.old) (length stack.old) (length places.old)))) output.old output.new result }
{
    let own = p.0;
    if own < statements.len() {
        let at = fields::statement_offset(statements, p);
        if fields::kind(file, at) == 5 {
            let text = fields::proof_text(file, at);
            let answer = prove_statement(
                file, symbols, statements, p, text, pool, stack, places, tree,
            );
            return tell_long(file, tree, lent, answer, output);
        }
    }
    Told {
        number: 8,
        place: 0,
        steps: 0,
    }
}

// The file is checked, then the statement's long form is written. Of the tree entries that were lent, these are used.
fn long_file(
    file: &[u8],
    p: usize,
    pool: &mut [u8],
    stack: &mut [u64],
    places: &mut [u64],
    tree: &mut [u64],
    lent: usize,
    output: &mut [u8],
) -> Told
    requires { length tree.old ≡ min lent 131072 }
    ensures { SaysLong (long_answer file.now p (room_lent (length pool.old) (length stack.old) (length places.old)) lent (length output.old)) output.old output.new result }
{
    let mut symbols = [0; OFFSETS];
    let mut statements = [0; OFFSETS];
    match check(file, &mut symbols, &mut statements) {
        Err(away) => Told {
            number: frames::number(away.why),
            place: away.place,
            steps: 0,
        },
        Ok(sizes) => {
            long_statement(
                file,
                &symbols[..sizes.symbols],
                &statements[..sizes.statements],
                StatementNo(p),
                pool,
                stack,
                places,
                tree,
                lent,
                output,
            )
        }
    }
}

// As much of the tree entries that were lent as is ever used.
fn long_within(
    file: &[u8],
    p: usize,
    pool: &mut [u8],
    stack: &mut [u64],
    places: &mut [u64],
    tree: &mut [u64],
    output: &mut [u8],
) -> Told
    ensures { SaysLong (long_answer file.now p (room_lent (length pool.old) (length stack.old) (length places.old)) (length tree.old) (length output.old)) output.old output.new result }
{
    let lent = tree.len();
    let used = lent.min(ENTRIES);
    long_file(
        file,
        p,
        pool,
        stack,
        places,
        &mut tree[..used],
        lent,
        output,
    )
}

// The long form of one statement's proof: the file is checked, the proof is run, its long form is written, and all that was lent for the run is cleared.
pub fn long_form(
    file: &[u8],
    p: usize,
    pool: &mut [u8],
    stack: &mut [u64],
    places: &mut [u64],
    tree: &mut [u64],
    output: &mut [u8],
) -> Told
    ensures { WritesLongForm file.now p pool.old stack.old places.old tree.old output.old pool.new stack.new places.new tree.new output.new result }
{
    let told = long_within(file, p, pool, stack, places, tree, output);
    clear(pool, 0);
    clear(stack, 0);
    clear(places, 0);
    clear(tree, 0);
    told
}
