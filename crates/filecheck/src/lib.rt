// The check of a whole frame file: the records are judged one after another, and the offsets of symbols and statements are
// left in the two tables.
#![tactic(auto)]

ghost use Rattle.std.specs.Prelude.{◌≡◌, ◌+◌, ◌≤◌, ◌<◌, length, set, take};
ghost use Rattle.frames.specs.Logic.{equal, pick};
ghost use Rattle.frames.specs.Layout.{kind_at, next_at, is_statement};
ghost use Rattle.frames.specs.Verdict.{fault_at, end_verdict};
ghost use Rattle.frames.specs.Verdict.{Checked};
ghost use Rattle.filecheck.specs.Walk.{Advanced};

use frames::record::{is_statement, kind_at, next_at};
use frames::refer::lay;
use frames::{Refusal, Sizes, TurnedAway, Verdict};
use rows::{bad_frame, bad_label, bad_record, bad_reference, bad_symbol, no_proof, too_many};

// What is wrong with the record at `at`: the lowest number whose row holds.
fn fault(file: &[u8], symbols: &[u32], statements: &[u32], owed: bool, at: u32) -> Option<Refusal>
    ensures { result ≡ fault_at file.now symbols.now statements.now owed at }
{
    if bad_record(file, at) {
        return Some(Refusal::BadRecord);
    }
    if too_many(file, symbols, statements, at) {
        return Some(Refusal::TooMany);
    }
    if bad_symbol(file, symbols, at) {
        return Some(Refusal::BadSymbol);
    }
    if bad_label(file, statements, at) {
        return Some(Refusal::BadLabel);
    }
    if bad_reference(file, symbols, statements, at) {
        return Some(Refusal::BadReference);
    }
    if bad_frame(file, symbols, statements, at) {
        return Some(Refusal::BadFrame);
    }
    if no_proof(file, owed, at) {
        return Some(Refusal::NoProof);
    }
    None
}

// The same, on the parts of the two tables that are in use.
fn judge(file: &[u8], symbols: &[u32], statements: &[u32], st: Walk) -> Option<Refusal>
    requires { (st.symbols ≤ length symbols.now) × (st.statements ≤ length statements.now) }
    ensures { result ≡ fault_at file.now (take st.symbols symbols.now) (take st.statements statements.now) st.owed st.at }
{
    let n = st.symbols;
    let m = st.statements;
    let owed = st.owed;
    let at = st.at;
    fault(file, &symbols[..n], &statements[..m], owed, at)
}

// Where the walk stands: the offset of the next record, how many symbols and statements it has read, and whether the last
// record is a $p.
#[derive(Clone, Copy)]
pub struct Walk {
    pub at: u32,
    pub symbols: usize,
    pub statements: usize,
    pub owed: bool,
}

// Lays the offset of a record into the table of its kind, if it is of that kind, and counts it.
#[tactic(auto, unfolding(frames::specs::Logic::pick))]
fn lay_if(table: &mut [u32], count: usize, of_kind: bool, at: u32) -> usize
    requires { count < 5000 }
    ensures { (result ≡ pick of_kind (count + 1) count) × (table.new ≡ pick of_kind (set table.old count at) table.old) }
{
    if of_kind {
        lay(table, count, at);
        count + 1
    } else {
        count
    }
}

// Where the walk stands after the record at `st.at`, which is good.
#[tactic(auto, unfolding(frames::specs::Logic::equal))]
fn advance(file: &[u8], symbols: &mut [u32], statements: &mut [u32], st: Walk) -> Walk
    requires { (st.symbols < 5000) × ((st.statements < 5000) × (next_at file.now st.at < 4294967296)) }
    ensures { Advanced file.now symbols.old statements.old st symbols.new statements.new result }
{
    let at = st.at;
    let kind = kind_at(file, at);
    Walk {
        at: next_at(file, at) as u32,
        symbols: lay_if(symbols, st.symbols, kind == 1, at),
        statements: lay_if(statements, st.statements, is_statement(kind), at),
        owed: kind == 5,
    }
}

// At the end of the file: a $p last in the file lacks its proof.
fn at_end(len: usize, st: Walk) -> Verdict
    ensures { result ≡ end_verdict st.owed len st.symbols st.statements }
{
    if st.owed {
        return Err(TurnedAway {
            why: Refusal::NoProof,
            place: len,
        });
    }
    Ok(Sizes {
        symbols: st.symbols,
        statements: st.statements,
    })
}

// The records of a file of at most 1,048,576 bytes, one after another.
fn walk_records(file: &[u8], symbols: &mut [u32], statements: &mut [u32]) -> Verdict
    requires { (length file.now ≤ 1048576) × ((4096 ≤ length symbols.old) × (4096 ≤ length statements.old)) }
    ensures { Checked file.now symbols.old statements.old symbols.new statements.new result }
{
    let len = file.len();
    let mut st = Walk {
        at: 0,
        symbols: 0,
        statements: 0,
        owed: false,
    };
    // A cursor: each record says where the next one begins.
    loop {
        let at = st.at as usize;
        if len <= at {
            return at_end(len, st);
        }
        match judge(file, &symbols[..], &statements[..], st) {
            Some(why) => return Err(TurnedAway { why, place: at }),
            None => {
                st = advance(file, symbols, statements, st);
            }
        }
    }
}

// The number of a table's entries.
fn full(table: &[u32; 4096]) -> usize
    ensures { length table.now ≡ 4096 }
{
    let t = &table[..];
    t.len()
}

// The file check: the verdict on any bytes. It leaves the offsets of the symbols and of the statements in the tables.
pub fn check(file: &[u8], symbols: &mut [u32; 4096], statements: &mut [u32; 4096]) -> Verdict
    ensures { Checked file.now symbols.old statements.old symbols.new statements.new result }
{
    if 1048576 < file.len() {
        return Err(TurnedAway {
            why: Refusal::TooMany,
            place: 0,
        });
    }
    full(symbols);
    full(statements);
    walk_records(file, symbols, statements)
}
