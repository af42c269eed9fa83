// A port of parts of src/verify.rs of metamath-rs 0.3.9 (verify_proof), changed (see NOTICE).
// A whole proof: the start, the text, its end.
#![tactic(auto)]

ghost use Rattle.std.specs.Prelude.{◌≤◌, length};
ghost use Rattle.run.specs.Running.{env, tables, Running};
ghost use Rattle.run.specs.Reads.{Low};
ghost use Rattle.findings.specs.Tells.{Tells};
ghost use Rattle.proof.specs.Whole.{EndsText, RunsText, Blank};
ghost use Rattle.frames.specs.Database.{database};
ghost use Rattle.machine.specs.Run.{run};
ghost use Rattle.memory.specs.Shown.{room_of};
ghost use Rattle.label_index.specs.Labelled.{Labelled};

use begin::begin;
use disjoint::table::fill;
use findings::{Answer, finish};
use frames::fields;
use frames::numbers::StatementNo;
use memory::{Counts, Limits};
use run::Mode;
use run_bytes::{State, Stopped, read_text};
use run_tokens::on_token;

// The end of the text: the last token is whole, then the findings.
fn end_text(
    file: &[u8],
    symbols: &[u32],
    statements: &[u32],
    labels: &[u32],
    p: StatementNo,
    text: &[u8],
    table: &[u64],
    seats: &mut [u32],
    froms: &mut [u32],
    tos: &mut [u32],
    sets: &mut [u64],
    numbers: &mut [u32],
    pool: &mut [u8],
    stack: &mut [u64],
    places: &mut [u64],
    locals: &mut [u32],
    tree: &mut [u64],
    limits: Limits,
    s: State,
) -> Answer
    requires labelled { Labelled file.now statements.now labels.now }
    requires running { Running (env file.now symbols.now statements.now p.0 text.now table.now limits) (tables seats.old froms.old tos.old sets.old numbers.old pool.old stack.old places.old locals.old tree.old) s.counts }
    requires low { (Low s.mode × (s.steps ≤ 65536)) × (s.token ≤ length text.now) }
    ensures { EndsText (env file.now symbols.now statements.now p.0 text.now table.now limits) (tables seats.old froms.old tos.old sets.old numbers.old pool.old stack.old places.old locals.old tree.old) tree.new s result }
{
    let at = fields::statement_offset(statements, p);
    let c = s.counts;
    let mode = s.mode;
    let from = s.token;
    if from < text.len() {
        match on_token(
            mode,
            file,
            symbols,
            statements,
            labels,
            p,
            text,
            table,
            seats,
            froms,
            tos,
            sets,
            numbers,
            pool,
            stack,
            places,
            locals,
            tree,
            from,
            text.len(),
            c,
            limits,
            s.steps,
        ) {
            Ok(going) => {
                return finish(
                    file,
                    symbols,
                    at,
                    stack,
                    pool,
                    going.counts,
                    going.mode,
                    text.len(),
                    going.steps,
                );
            }
            Err(halted) => {
                return Err(Stopped {
                    why: halted.why,
                    place: from,
                    steps: halted.steps,
                });
            }
        }
    }
    finish(file, symbols, at, stack, pool, c, mode, text.len(), s.steps)
}

// The text, from its first byte to its end.
fn run_text(
    file: &[u8],
    symbols: &[u32],
    statements: &[u32],
    labels: &[u32],
    p: StatementNo,
    text: &[u8],
    table: &[u64],
    seats: &mut [u32],
    froms: &mut [u32],
    tos: &mut [u32],
    sets: &mut [u64],
    numbers: &mut [u32],
    pool: &mut [u8],
    stack: &mut [u64],
    places: &mut [u64],
    locals: &mut [u32],
    tree: &mut [u64],
    limits: Limits,
    c: Counts,
) -> Answer
    requires labelled { Labelled file.now statements.now labels.now }
    requires running { Running (env file.now symbols.now statements.now p.0 text.now table.now limits) (tables seats.old froms.old tos.old sets.old numbers.old pool.old stack.old places.old locals.old tree.old) c }
    ensures { RunsText (env file.now symbols.now statements.now p.0 text.now table.now limits) (tables seats.old froms.old tos.old sets.old numbers.old pool.old stack.old places.old locals.old tree.old) tree.new c result }
{
    let start = State {
        mode: Mode::Beginning,
        token: 0,
        steps: 0,
        counts: c,
    };
    let s = read_text(
        file, symbols, statements, labels, p, text, table, seats, froms, tos, sets, numbers, pool,
        stack, places, locals, tree, limits, start,
    )?;
    end_text(
        file, symbols, statements, labels, p, text, table, seats, froms, tos, sets, numbers, pool,
        stack, places, locals, tree, limits, s,
    )
}

// The proof of statement p: 20, 44, then its text.
pub fn verify_proof(
    file: &[u8],
    symbols: &[u32],
    statements: &[u32],
    labels: &[u32],
    p: StatementNo,
    text: &[u8],
    table: &mut [u64],
    seats: &mut [u32],
    froms: &mut [u32],
    tos: &mut [u32],
    sets: &mut [u64],
    numbers: &mut [u32],
    pool: &mut [u8],
    stack: &mut [u64],
    places: &mut [u64],
    locals: &mut [u32],
    tree: &mut [u64],
    limits: Limits,
) -> Answer
    requires labelled { Labelled file.now statements.now labels.now }
    requires blank { Blank (env file.now symbols.now statements.now p.0 text.now table.old limits) (tables seats.old froms.old tos.old sets.old numbers.old pool.old stack.old places.old locals.old tree.old) }
    ensures { Tells file.now tree.new (run (database file.now) p.0 (room_of limits) text.now) result }
{
    let at = fields::statement_offset(statements, p);
    match begin(file, statements, at, text, numbers) {
        Err(why) => Err(Stopped {
            why: why,
            place: 0,
            steps: 0,
        }),
        Ok(c) => {
            fill(file, at, numbers, table);
            run_text(
                file, symbols, statements, labels, p, text, table, seats, froms, tos, sets,
                numbers, pool, stack, places, locals, tree, limits, c,
            )
        }
    }
}
