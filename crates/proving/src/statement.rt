// A port of parts of src/verify.rs of metamath-rs 0.3.9 (verify_segment), changed (see NOTICE).
// One statement of a checked file: its answer, over tables that are lent; its proof, with tables of our own and its derivation kept.
ghost use Rattle.std.specs.Prelude.{◌≡◌, ◌<◌, ◌≤◌, length};
ghost use Rattle.frames.specs.Database.{database};
ghost use Rattle.frames.specs.Facts.{statement_of};
ghost use Rattle.machine.specs.Memory.{limited};
ghost use Rattle.machine.specs.Bench.{answer_good, ended};
ghost use Rattle.machine.specs.Run.{run};
ghost use Rattle.resolve.specs.Filed.{Filed};
ghost use Rattle.label_index.specs.Labelled.{Labelled};
ghost use Rattle.findings.specs.Tells.{Tells};
ghost use Rattle.told.specs.Says.{Says, room_lent};
ghost use Rattle.proving.specs.Ours.{Ours};

use crate::{IMAGE_SETS, LABEL_WORDS, LOCAL_LABELS, OFFSETS, PAIR_SETS, SEATS, prove_cut};
use findings::Answer;
use frames::fields;
use frames::numbers::StatementNo;
use label_index::fill;
use told::{Told, tell};

// Room for no derivation: one tree entry, which holds at most an application without hypotheses.
const NO_TREE: usize = 1;

// The proof of statement p, a $p, whose text is this, is answered. Its derivation is not kept.
fn answer_proof(
    file: &[u8],
    symbols: &[u32],
    statements: &[u32],
    labels: &[u32],
    p: StatementNo,
    text: &[u8],
    table: &mut [u64],
    seats: &mut [u32],
    froms: &mut [u32],
    tos: &mut [u32],
    sets: &mut [u64],
    numbers: &mut [u32],
    pool: &mut [u8],
    stack: &mut [u64],
    places: &mut [u64],
    locals: &mut [u32],
) -> Told
    requires labelled { Labelled file.now statements.now labels.now }
    requires filed { Filed file.now symbols.now statements.now }
    requires asked { (p.0 < length statements.now) × (length text.now ≤ 65536) }
    requires ours { Ours table.old seats.old froms.old tos.old sets.old numbers.old locals.old }
    ensures { Says (ended (run (database file.now) p.0 (limited (room_lent (length pool.old) (length stack.old) (length places.old))) text.now)) result }
{
    let mut tree = [0; NO_TREE];
    tell(prove_cut(
        file, symbols, statements, labels, p, text, table, seats, froms, tos, sets, numbers, pool,
        stack, places, locals, &mut tree,
    ))
}

// Statement p: 8 where it is no $p or there is none, else the answer to its proof.
// The tables stay slices: this function, which docs/DECISIONS.md names, asks only for their sizes, and a struct of arrays would ask more.
pub fn answer_statement(
    file: &[u8],
    symbols: &[u32],
    statements: &[u32],
    labels: &[u32],
    p: StatementNo,
    table: &mut [u64],
    seats: &mut [u32],
    froms: &mut [u32],
    tos: &mut [u32],
    sets: &mut [u64],
    numbers: &mut [u32],
    pool: &mut [u8],
    stack: &mut [u64],
    places: &mut [u64],
    locals: &mut [u32],
) -> Told
    requires labelled { Labelled file.now statements.now labels.now }
    requires filed { Filed file.now symbols.now statements.now }
    requires ours { Ours table.old seats.old froms.old tos.old sets.old numbers.old locals.old }
    ensures { Says (answer_good (database file.now) p.0 (room_lent (length pool.old) (length stack.old) (length places.old))) result }
{
    let own = p.0;
    if own < statements.len() {
        let at = fields::statement_offset(statements, p);
        if fields::kind(file, at) == 5 {
            let text = fields::proof_text(file, at);
            return answer_proof(
                file, symbols, statements, labels, p, text, table, seats, froms, tos, sets,
                numbers, pool, stack, places, locals,
            );
        }
    }
    Told {
        number: 8,
        place: 0,
        steps: 0,
    }
}

// The proof of statement p, a $p, whose text is this, with tables of our own.
pub fn prove_statement(
    file: &[u8],
    symbols: &[u32],
    statements: &[u32],
    p: StatementNo,
    text: &[u8],
    pool: &mut [u8],
    stack: &mut [u64],
    places: &mut [u64],
    tree: &mut [u64],
) -> Answer
    requires filed { Filed file.now symbols.now statements.now }
    requires asked { (p.0 < length statements.now) × (length text.now ≤ 65536) }
    requires entries { length tree.old ≤ 131072 }
    ensures { Tells file.now tree.new (run (database file.now) p.0 (limited (room_lent (length pool.old) (length stack.old) (length places.old))) text.now) result }
{
    let mut table = [0; PAIR_SETS];
    let mut seats = [0; SEATS];
    let mut froms = [0; OFFSETS];
    let mut tos = [0; OFFSETS];
    let mut sets = [0; IMAGE_SETS];
    let mut numbers = [0; OFFSETS];
    let mut locals = [0; LOCAL_LABELS];
    let mut labels = [0; LABEL_WORDS];
    fill(file, statements, &mut labels);
    prove_cut(
        file,
        symbols,
        statements,
        &labels,
        p,
        text,
        &mut table,
        &mut seats,
        &mut froms,
        &mut tos,
        &mut sets,
        &mut numbers,
        pool,
        stack,
        places,
        &mut locals,
        tree,
    )
}
