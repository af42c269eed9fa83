// A port of parts of src/verify.rs of metamath-rs 0.3.9 (verify_segment), changed (see NOTICE).
// The proof of one statement of a checked file, run over tables of our own: how large these are, and as much of them as the file asks for.
#![tactic(auto)]

ghost use Rattle.std.specs.Prelude.{◌≡◌, ◌<◌, ◌≤◌, length};
ghost use Rattle.frames.specs.Database.{database};
ghost use Rattle.machine.specs.Memory.{limited};
ghost use Rattle.machine.specs.Run.{run};
ghost use Rattle.resolve.specs.Filed.{Filed};
ghost use Rattle.label_index.specs.Labelled.{Labelled};
ghost use Rattle.findings.specs.Tells.{Tells};
ghost use Rattle.told.specs.Says.{room_lent};
ghost use Rattle.proving.specs.Ours.{Ours, Cut};

use clearing::clear;
use findings::Answer;
use frames::numbers::StatementNo;
use proof::verify_proof;
use told::limits_of;

pub mod statement;

// Room for the offsets of an index, or for the numbers or the images of all symbols.
pub const OFFSETS: usize = 4096;

// Room for the disjoint pairs: 256 sets.
pub const PAIR_SETS: usize = 1024;

// Room for the sets of the images of all symbols.
pub const IMAGE_SETS: usize = 16384;

// Room for 4,096 local labels.
pub const LOCAL_LABELS: usize = 12288;

// Room for the index of labels.
pub const LABEL_WORDS: usize = 12288;

// Room for the seats of 64 hypotheses.
pub const SEATS: usize = 64;

// The proof of statement p, a $p, whose text is this, over tables that have an entry for each symbol of the file. What they tell of before is cleared first.
fn prove(
    file: &[u8],
    symbols: &[u32],
    statements: &[u32],
    labels: &[u32],
    p: StatementNo,
    text: &[u8],
    table: &mut [u64],
    seats: &mut [u32],
    froms: &mut [u32],
    tos: &mut [u32],
    sets: &mut [u64],
    numbers: &mut [u32],
    pool: &mut [u8],
    stack: &mut [u64],
    places: &mut [u64],
    locals: &mut [u32],
    tree: &mut [u64],
) -> Answer
    requires labelled { Labelled file.now statements.now labels.now }
    requires filed { Filed file.now symbols.now statements.now }
    requires asked { (p.0 < length statements.now) × (length text.now ≤ 65536) }
    requires cut { Cut (length symbols.now) table.old seats.old froms.old tos.old sets.old numbers.old locals.old }
    requires entries { length tree.old ≤ 131072 }
    ensures { Tells file.now tree.new (run (database file.now) p.0 (limited (room_lent (length pool.old) (length stack.old) (length places.old))) text.now) result }
{
    clear(table, 0);
    clear(froms, 0);
    clear(tos, 0);
    clear(numbers, 0);
    let limits = limits_of(pool.len(), stack.len(), places.len());
    verify_proof(
        file, symbols, statements, labels, p, text, table, seats, froms, tos, sets, numbers, pool,
        stack, places, locals, tree, limits,
    )
}

// The proof of statement p, a $p, whose text is this: as much of our tables as the file has symbols is used.
pub fn prove_cut(
    file: &[u8],
    symbols: &[u32],
    statements: &[u32],
    labels: &[u32],
    p: StatementNo,
    text: &[u8],
    table: &mut [u64],
    seats: &mut [u32],
    froms: &mut [u32],
    tos: &mut [u32],
    sets: &mut [u64],
    numbers: &mut [u32],
    pool: &mut [u8],
    stack: &mut [u64],
    places: &mut [u64],
    locals: &mut [u32],
    tree: &mut [u64],
) -> Answer
    requires labelled { Labelled file.now statements.now labels.now }
    requires filed { Filed file.now symbols.now statements.now }
    requires asked { (p.0 < length statements.now) × (length text.now ≤ 65536) }
    requires ours { Ours table.old seats.old froms.old tos.old sets.old numbers.old locals.old }
    requires entries { length tree.old ≤ 131072 }
    ensures { Tells file.now tree.new (run (database file.now) p.0 (limited (room_lent (length pool.old) (length stack.old) (length places.old))) text.now) result }
{
    let n = symbols.len();
    prove(
        file,
        symbols,
        statements,
        labels,
        p,
        text,
        table,
        seats,
        &mut froms[..n],
        &mut tos[..n],
        &mut sets[..4 * n],
        &mut numbers[..n],
        pool,
        stack,
        places,
        locals,
        tree,
    )
}
