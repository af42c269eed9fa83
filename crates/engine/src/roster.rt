// A port of parts of src/verify.rs of metamath-rs 0.3.9 (prepare_step for the roster, verify_proof's preloading), changed (see NOTICE).
// What takes places before the letters of a compressed proof: the listed hypotheses, then the labels of the roster.
ghost use Rattle.std.specs.Prelude.{◌*◌, ◌≤◌, length};
ghost use Rattle.engine.specs.Ready.{Bounded};
ghost use Rattle.engine.specs.Roster.{PlacesFrame, PreparesRoster, Preloads};
ghost use Rattle.label_index.specs.Labelled.{Labelled};

use crate::ready::place_hypothesis;
use bitset::Bitset;
use frames::fields;
use frames::numbers::StatementNo;
use machine::Refusal;
use memory::stack::add_place;
use memory::table::Row;
use memory::{Counts, Limits, Outcome};
use resolve::{PreparedStep, prepare_label};

// The assertion a takes the next place: 46 where there is no room.
pub fn place_frame(places: &mut [u64], a: StatementNo, c: Counts, limit: usize) -> Outcome
    requires { (10 * limit ≤ length places.old) × (limit ≤ 4096) }
    ensures { PlacesFrame places.old a.0 c limit places.new result }
{
    let row = Row {
        head: a.0,
        from: 0,
        to: 0,
        tag: 1,
        end: 0,
        node: 0,
        vars: Bitset::new(),
    };
    add_place(places, c, limit, row)
}

// A roster label takes the next place: 25, 29, 30, 44, 43, 46.
pub fn prepare_roster(
    file: &[u8],
    symbols: &[u32],
    statements: &[u32],
    labels: &[u32],
    p: StatementNo,
    label: &[u8],
    numbers: &mut [u32],
    pool: &mut [u8],
    places: &mut [u64],
    c: Counts,
    limits: Limits,
) -> Outcome
    requires labelled { Labelled file.now statements.now labels.now }
    requires bounded { Bounded limits c × (limits.pool ≤ length pool.old) }
    requires places { (10 * limits.places ≤ length places.old) × (limits.places ≤ 4096) }
    ensures { PreparesRoster file.now symbols.now statements.now p.0 label.now numbers.old pool.old places.old c limits numbers.new pool.new places.new result }
{
    match prepare_label(file, statements, labels, p, label)? {
        PreparedStep::Hypothesis(h) => {
            let at = fields::statement_offset(statements, h);
            place_hypothesis(file, symbols, at, numbers, pool, places, c, limits)
        }
        PreparedStep::Frame(a) => place_frame(places, a, c, limits.places),
        // a roster label names no place
        PreparedStep::Place(_) => Err(Refusal::StepMissing),
    }
}

// The listed hypotheses of the statement at `at` take places, one after another: 44, 43, 46.
pub fn preload(
    file: &[u8],
    symbols: &[u32],
    statements: &[u32],
    at: u32,
    numbers: &mut [u32],
    pool: &mut [u8],
    places: &mut [u64],
    c: Counts,
    limits: Limits,
) -> Outcome
    requires bounded { Bounded limits c × (limits.pool ≤ length pool.old) }
    requires places { (10 * limits.places ≤ length places.old) × (limits.places ≤ 4096) }
    ensures { Preloads file.now symbols.now statements.now at numbers.old pool.old places.old c limits numbers.new pool.new places.new result }
{
    let n = fields::hypotheses(file, at);
    let mut now = c;
    for i in 0..n {
        let o = fields::statement_offset(statements, fields::hypothesis(file, at, i));
        now = place_hypothesis(file, symbols, o, numbers, pool, places, now, limits)?;
    }
    Ok(now)
}
