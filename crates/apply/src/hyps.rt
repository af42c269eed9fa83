// A port of parts of src/verify.rs of metamath-rs 0.3.9 (process_hyp), changed (see NOTICE).
// The hypotheses of an assertion in frame order, each with its entry: a $f binds, a $e must equal its substitution.
ghost use Rattle.std.specs.Prelude.{◌≡◌, ◌≤◌, ◌<◌, length};
ghost use Rattle.apply.specs.Hyps.{Clamped, Ranged, BindsFloat, ChecksEssential, ProcessesHyp, ProcessesHyps, SeatRow};

use frames::fields;
use frames::numbers::SymbolNo;
use frames::refer::entry;
use machine::Refusal;
use memory::table::{Row, row_at};
use packed::compare::do_substitute_eq;
use packed::images::bind;

// A row with its range within the used part of the pool.
fn clamped(row: Row, used: usize) -> Row
    ensures { Clamped row used result }
{
    let to = row.to.min(used);
    let from = row.from.min(to);
    Row { from, to, ..row }
}

// The $f at `at` binds its variable to what the row proves: 35.
fn bind_float(
    file: &[u8],
    at: u32,
    row: Row,
    froms: &mut [u32],
    tos: &mut [u32],
    sets: &mut [u64],
) -> Result<(), Refusal>
    requires { (row.from ≤ row.to) × (row.to < 4294967296) }
    ensures { BindsFloat file.now at row froms.old tos.old sets.old froms.new tos.new sets.new result }
{
    let typecode = fields::typecode(file, at);
    if row.head != typecode.0 {
        return Err(Refusal::StepFloatWrongType);
    }
    let variable = fields::variable(file, at);
    let vars = row.vars;
    bind(
        froms,
        tos,
        sets,
        SymbolNo(variable.0 % 65536),
        row.from as u32,
        row.to as u32,
        vars,
    );
    Ok(())
}

// The $e at `at` must be what the row proves, each variable replaced by its image: 36, 37.
fn check_essential(
    file: &[u8],
    symbols: &[u32],
    at: u32,
    row: Row,
    froms: &[u32],
    tos: &[u32],
    pool: &[u8],
) -> Result<(), Refusal>
    requires { ((row.from ≤ row.to) × (row.to ≤ length pool.now)) × Ranged froms.now tos.now (length pool.now) }
    ensures { ChecksEssential file.now symbols.now at row froms.now tos.now pool.now result }
{
    let code = fields::typecode(file, at);
    if row.head != code.0 {
        return Err(Refusal::StepEssenWrongType);
    }
    if do_substitute_eq(file, symbols, at, froms, tos, pool, row.from, row.to) {
        return Ok(());
    }
    Err(Refusal::StepEssenWrong)
}

// The $f or $e at `at` with its entry.
fn process_hyp(
    file: &[u8],
    symbols: &[u32],
    at: u32,
    row: Row,
    froms: &mut [u32],
    tos: &mut [u32],
    sets: &mut [u64],
    pool: &[u8],
) -> Result<(), Refusal>
    requires { ((row.from ≤ row.to) × ((row.to ≤ length pool.now) × (row.to < 4294967296))) × (Ranged froms.old tos.old (length pool.now) × (length froms.old ≤ length tos.old)) }
    ensures { ProcessesHyp file.now symbols.now at row froms.old tos.old sets.old pool.now froms.new tos.new sets.new result }
{
    if fields::kind(file, at) == 2 {
        return bind_float(file, at, row, froms, tos, sets);
    }
    check_essential(file, symbols, at, row, froms, tos, pool)
}

// The entry in seat j, counted from `base`.
fn seat_row(stack: &[u64], base: usize, seats: &[u32], j: usize, used: usize) -> Row
    requires { base ≤ 1024 }
    ensures { SeatRow stack.now base seats.now j used result }
{
    let i = entry(seats, j) as usize;
    let row = row_at(stack, base + i % 64);
    clamped(row, used)
}

// The hypotheses of the assertion at `at`, in frame order.
pub fn process_hyps(
    file: &[u8],
    symbols: &[u32],
    statements: &[u32],
    at: u32,
    stack: &[u64],
    base: usize,
    seats: &[u32],
    used: usize,
    froms: &mut [u32],
    tos: &mut [u32],
    sets: &mut [u64],
    pool: &[u8],
) -> Result<(), Refusal>
    requires { ((used ≤ length pool.now) × ((used < 4294967296) × (base ≤ 1024))) × (Ranged froms.old tos.old used × (length froms.old ≤ length tos.old)) }
    ensures { ProcessesHyps file.now symbols.now statements.now at stack.now base seats.now used froms.old tos.old sets.old pool.now froms.new tos.new sets.new result }
{
    let n = fields::hypotheses(file, at);
    for j in 0..n {
        let row = seat_row(stack, base, seats, j, used);
        let o = fields::statement_offset(statements, fields::hypothesis(file, at, j));
        process_hyp(file, symbols, o, row, froms, tos, sets, pool)?;
    }
    Ok(())
}
