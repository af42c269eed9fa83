// A port of parts of src/verify.rs of metamath-rs 0.3.9 (the tokens in verify_proof), changed (see NOTICE).
// The tokens of a proof: the steps of a normal proof with their local labels, and the roster of a compressed one.
#![tactic(auto)]

ghost use Rattle.std.specs.Prelude.{◌≡◌, ◌*◌, ◌≤◌, length};
ghost use Rattle.frames.specs.Database.{database};
ghost use Rattle.machine.specs.Reading.{split};
ghost use Rattle.memory.specs.Shown.{room_of};
ghost use Rattle.packed.specs.Pool.{range};
ghost use Rattle.run.specs.Running.{env, tables, Running, Proceeds};
ghost use Rattle.run.specs.declared.Mode.TheVariants.{Beginning};
ghost use Rattle.run.specs.Reads.{Low};
ghost use Rattle.run_tokens.specs.Tokens.{normal_step, LabelsStep, ReadsNormal, roster_read, ReadsToken};
ghost use Rattle.label_index.specs.Labelled.{Labelled};

use apply::step::execute_step;
use ends::local::give_local;
use engine::place::run_place;
use engine::ready::push_hypothesis;
use engine::roster::{preload, prepare_roster};
use frames::fields;
use frames::numbers::StatementNo;
use machine::Refusal;
use memory::{Counts, Limits, Outcome};
use resolve::{PreparedStep, prepare_step};
use run::{Going, Halted, Mode, Read};
use spans::{is_token, local_span, mark_span};

// One normal step, without its local label: 26, 28, 25, 29 to 38, 43 to 45.
fn run_token(
    file: &[u8],
    symbols: &[u32],
    statements: &[u32],
    labels: &[u32],
    p: StatementNo,
    text: &[u8],
    table: &[u64],
    seats: &mut [u32],
    froms: &mut [u32],
    tos: &mut [u32],
    sets: &mut [u64],
    numbers: &mut [u32],
    pool: &mut [u8],
    stack: &mut [u64],
    places: &[u64],
    locals: &[u32],
    tree: &mut [u64],
    from: usize,
    to: usize,
    c: Counts,
    limits: Limits,
) -> Outcome
    requires labelled { Labelled file.now statements.now labels.now }
    requires running { Running (env file.now symbols.now statements.now p.0 text.now table.now limits) (tables seats.old froms.old tos.old sets.old numbers.old pool.old stack.old places.now locals.now tree.old) c }
    requires within { (from ≤ to) × (to ≤ length text.now) }
    ensures { Proceeds (env file.now symbols.now statements.now p.0 text.now table.now limits) (tables seats.old froms.old tos.old sets.old numbers.old pool.old stack.old places.now locals.now tree.old) (tables seats.new froms.new tos.new sets.new numbers.new pool.new stack.new places.now locals.now tree.new) c (normal_step (database file.now) p.0 (room_of limits) (split (range from to text.now))) result }
{
    let mark = mark_span(text, from, to);
    match prepare_step(
        file,
        statements,
        labels,
        p,
        &text[from..to],
        text,
        locals,
        c.locals,
    )? {
        PreparedStep::Place(k) => run_place(
            file, symbols, statements, text, table, seats, froms, tos, sets, pool, stack, tree,
            places, k, c, limits, mark.tag, mark.end,
        ),
        PreparedStep::Hypothesis(h) => {
            let at = fields::statement_offset(statements, h);
            push_hypothesis(
                file, symbols, at, numbers, pool, stack, c, limits, mark.tag, mark.end,
            )
        }
        PreparedStep::Frame(a) => execute_step(
            file, symbols, statements, a, text, table, seats, froms, tos, sets, pool, stack, tree,
            c, limits, mark.tag, mark.end,
        ),
    }
}

// After a normal step: its local label, 27, 23, 46. The step is among the `done` that are completed.
fn after_step(
    text: &[u8],
    stack: &[u64],
    places: &mut [u64],
    locals: &mut [u32],
    from: usize,
    to: usize,
    c: Counts,
    limit: usize,
    done: usize,
) -> Read
    requires limit_in_bounds { ((10 * limit ≤ length places.old) × (limit ≤ 4096)) × ((12288 ≤ length locals.old) × (c.depth ≤ 1024)) }
    requires counted { (c.locals ≤ c.places) × (c.places ≤ limit) }
    requires within { ((from ≤ to) × (to ≤ length text.now)) × (length text.now ≤ 65536) }
    ensures { LabelsStep text.now stack.now places.old locals.old from to c limit done places.new locals.new result }
{
    let local = local_span(text, from, to);
    if local.tag == 0 {
        return Ok(Going {
            mode: Mode::Normal,
            counts: c,
            steps: done,
        });
    }
    match give_local(
        text,
        local.tag - 1,
        local.end,
        stack,
        locals,
        places,
        c,
        limit,
    ) {
        Ok(now) => Ok(Going {
            mode: Mode::Normal,
            counts: now,
            steps: done,
        }),
        Err(why) => Err(Halted { why, steps: done }),
    }
}

// A normal token: `?` alone is 24; else it is a step, and then its local label.
fn on_normal(
    file: &[u8],
    symbols: &[u32],
    statements: &[u32],
    labels: &[u32],
    p: StatementNo,
    text: &[u8],
    table: &[u64],
    seats: &mut [u32],
    froms: &mut [u32],
    tos: &mut [u32],
    sets: &mut [u64],
    numbers: &mut [u32],
    pool: &mut [u8],
    stack: &mut [u64],
    places: &mut [u64],
    locals: &mut [u32],
    tree: &mut [u64],
    from: usize,
    to: usize,
    c: Counts,
    limits: Limits,
    steps: usize,
) -> Read
    requires labelled { Labelled file.now statements.now labels.now }
    requires running { Running (env file.now symbols.now statements.now p.0 text.now table.now limits) (tables seats.old froms.old tos.old sets.old numbers.old pool.old stack.old places.old locals.old tree.old) c }
    requires within { ((from ≤ to) × (to ≤ length text.now)) × (steps ≤ 65536) }
    ensures { ReadsNormal (env file.now symbols.now statements.now p.0 text.now table.now limits) (tables seats.old froms.old tos.old sets.old numbers.old pool.old stack.old places.old locals.old tree.old) (tables seats.new froms.new tos.new sets.new numbers.new pool.new stack.new places.new locals.new tree.new) c from to steps result }
{
    if is_token(text, from, to, 63) {
        return Err(Halted {
            why: Refusal::ProofIncomplete,
            steps,
        });
    }
    let done = steps + 1;
    match run_token(
        file, symbols, statements, labels, p, text, table, seats, froms, tos, sets, numbers, pool,
        stack, places, locals, tree, from, to, c, limits,
    ) {
        Ok(ran) => after_step(
            text,
            stack,
            places,
            locals,
            from,
            to,
            ran,
            limits.places,
            done,
        ),
        Err(why) => Err(Halted { why, steps }),
    }
}

// After what takes places in the roster, which is no step.
fn in_roster(outcome: Outcome, steps: usize) -> Read
    ensures { result ≡ roster_read outcome steps }
{
    match outcome {
        Ok(now) => Ok(Going {
            mode: Mode::Roster,
            counts: now,
            steps,
        }),
        Err(because) => Err(Halted {
            why: because,
            steps,
        }),
    }
}

// The first token: `(` alone begins a compressed proof, whose listed hypotheses take places; else the proof is normal.
fn on_first(
    file: &[u8],
    symbols: &[u32],
    statements: &[u32],
    labels: &[u32],
    p: StatementNo,
    text: &[u8],
    table: &[u64],
    seats: &mut [u32],
    froms: &mut [u32],
    tos: &mut [u32],
    sets: &mut [u64],
    numbers: &mut [u32],
    pool: &mut [u8],
    stack: &mut [u64],
    places: &mut [u64],
    locals: &mut [u32],
    tree: &mut [u64],
    from: usize,
    to: usize,
    c: Counts,
    limits: Limits,
    steps: usize,
) -> Read
    requires labelled { Labelled file.now statements.now labels.now }
    requires running { Running (env file.now symbols.now statements.now p.0 text.now table.now limits) (tables seats.old froms.old tos.old sets.old numbers.old pool.old stack.old places.old locals.old tree.old) c }
    requires within { ((from ≤ to) × (to ≤ length text.now)) × (steps ≤ 65536) }
    ensures { ReadsToken (env file.now symbols.now statements.now p.0 text.now table.now limits) (tables seats.old froms.old tos.old sets.old numbers.old pool.old stack.old places.old locals.old tree.old) (tables seats.new froms.new tos.new sets.new numbers.new pool.new stack.new places.new locals.new tree.new) c Beginning from to steps result }
{
    if is_token(text, from, to, 40) {
        let at = fields::statement_offset(statements, p);
        let outcome = preload(
            file, symbols, statements, at, numbers, pool, places, c, limits,
        );
        return in_roster(outcome, steps);
    }
    on_normal(
        file, symbols, statements, labels, p, text, table, seats, froms, tos, sets, numbers, pool,
        stack, places, locals, tree, from, to, c, limits, steps,
    )
}

// A whole token, judged by the mode; `)` alone ends the roster. (In the letters there are no tokens.)
pub fn on_token(
    mode: Mode,
    file: &[u8],
    symbols: &[u32],
    statements: &[u32],
    labels: &[u32],
    p: StatementNo,
    text: &[u8],
    table: &[u64],
    seats: &mut [u32],
    froms: &mut [u32],
    tos: &mut [u32],
    sets: &mut [u64],
    numbers: &mut [u32],
    pool: &mut [u8],
    stack: &mut [u64],
    places: &mut [u64],
    locals: &mut [u32],
    tree: &mut [u64],
    from: usize,
    to: usize,
    c: Counts,
    limits: Limits,
    steps: usize,
) -> Read
    requires labelled { Labelled file.now statements.now labels.now }
    requires running { Running (env file.now symbols.now statements.now p.0 text.now table.now limits) (tables seats.old froms.old tos.old sets.old numbers.old pool.old stack.old places.old locals.old tree.old) c }
    requires within { (((from ≤ to) × (to ≤ length text.now)) × (steps ≤ 65536)) × Low mode }
    ensures { ReadsToken (env file.now symbols.now statements.now p.0 text.now table.now limits) (tables seats.old froms.old tos.old sets.old numbers.old pool.old stack.old places.old locals.old tree.old) (tables seats.new froms.new tos.new sets.new numbers.new pool.new stack.new places.new locals.new tree.new) c mode from to steps result }
{
    match mode {
        Mode::Beginning => on_first(
            file, symbols, statements, labels, p, text, table, seats, froms, tos, sets, numbers,
            pool, stack, places, locals, tree, from, to, c, limits, steps,
        ),
        Mode::Normal => on_normal(
            file, symbols, statements, labels, p, text, table, seats, froms, tos, sets, numbers,
            pool, stack, places, locals, tree, from, to, c, limits, steps,
        ),
        Mode::Roster => {
            if is_token(text, from, to, 41) {
                return Ok(Going {
                    mode: Mode::Letters {
                        k: 0,
                        can_save: false,
                    },
                    counts: c,
                    steps,
                });
            }
            let outcome = prepare_roster(
                file,
                symbols,
                statements,
                labels,
                p,
                &text[from..to],
                numbers,
                pool,
                places,
                c,
                limits,
            );
            in_roster(outcome, steps)
        }
        Mode::Letters { k, can_save } => Ok(Going {
            mode: Mode::Letters { k, can_save },
            counts: c,
            steps,
        }),
    }
}
