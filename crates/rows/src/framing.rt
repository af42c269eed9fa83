// Row 6: whether the frame of a $a or $p is one.
#![tactic(auto, unfolding(frames::specs::Layout::hyps_at, frames::specs::Layout::pairs_at, frames::specs::Table::float_below, frames::specs::Table::symbol_given, frames::specs::Table::lacks_float, frames::specs::Table::second_float, frames::specs::Table::bad_assertion, frames::specs::Table::bad_frame, frames::specs::Logic::both, frames::specs::Logic::below, frames::specs::Logic::either, frames::specs::Logic::no, frames::specs::Logic::equal, frames::specs::Logic::one_of))]

ghost use Rattle.std.specs.Prelude.{◌≡◌, ◌<◌, ◌^◌};
ghost use Rattle.frames.specs.Logic.{any, rows};
ghost use Rattle.frames.specs.Layout.{u32, pair_at, symbols_at};
ghost use Rattle.frames.specs.Table.{float_below, has_float, symbol_given, all_given, lacks_float, second_float, equal_members, bad_assertion, bad_frame};

use frames::numbers::{StatementNo, SymbolNo};
use frames::read::{u16_at, u32_at};
use frames::record::{
    hyp_count, is_assertion, kind_at, lists_from, pair_count, pairs_from, symbol_count,
    symbols_from,
};
use frames::refer::{entry, float_variable, is_float_of, is_variable};

// Statement s is a $f of variable v, and its number is below `limit`.
fn is_float_below(file: &[u8], statements: &[u32], limit: usize, v: SymbolNo, s: usize) -> bool
    ensures { result ≡ float_below file.now statements.now limit v.0 s }
{
    s < limit && is_float_of(file, statements, v, StatementNo(s))
}

// One of the h listed hypotheses from `from` on is such a $f.
fn has_float(
    file: &[u8],
    statements: &[u32],
    from: usize,
    h: usize,
    limit: usize,
    v: SymbolNo,
) -> bool
    requires { (from < 2 ^ 40) × (h < 65536) }
    ensures { result ≡ has_float file.now statements.now (rows (u32 file.now) 4 h from) limit v.0 }
{
    for i in 0..h {
        let s = u32_at(file, from + 4 * i);
        if is_float_below(file, statements, limit, v, s) {
            return true;
        }
    }
    false
}

// The symbol, if it is a variable, has a listed $f below `limit`.
fn is_symbol_given(
    file: &[u8],
    symbols: &[u32],
    statements: &[u32],
    from: usize,
    h: usize,
    limit: usize,
    s: SymbolNo,
) -> bool
    requires { (from < 2 ^ 40) × (h < 65536) }
    ensures { result ≡ symbol_given file.now symbols.now statements.now (rows (u32 file.now) 4 h from) limit s.0 }
{
    !is_variable(file, symbols, s) || has_float(file, statements, from, h, limit, s)
}

// Every variable among the symbols of the statement at `at` has a listed $f below `limit`.
fn are_given(
    file: &[u8],
    symbols: &[u32],
    statements: &[u32],
    from: usize,
    h: usize,
    limit: usize,
    at: u32,
) -> bool
    requires { (from < 2 ^ 40) × (h < 65536) }
    ensures { result ≡ all_given file.now symbols.now statements.now (rows (u32 file.now) 4 h from) limit (symbols_at file.now at) }
{
    let first = symbols_from(file, at);
    let n = symbol_count(file, at);
    for i in 0..n {
        let s = SymbolNo(u16_at(file, first + 2 * i));
        if !is_symbol_given(file, symbols, statements, from, h, limit, s) {
            return false;
        }
    }
    true
}

// Statement s is a $e with a variable that has no listed $f, or has it after that $e.
fn lacks_float(
    file: &[u8],
    symbols: &[u32],
    statements: &[u32],
    from: usize,
    h: usize,
    s: usize,
) -> bool
    requires { (from < 2 ^ 40) × (h < 65536) }
    ensures { result ≡ lacks_float file.now symbols.now statements.now (rows (u32 file.now) 4 h from) s }
{
    let at = entry(statements, s);
    kind_at(file, at) == 3 && !are_given(file, symbols, statements, from, h, s, at)
}

// One of the h listed hypotheses from `from` on is such a $e.
fn one_lacks_float(file: &[u8], symbols: &[u32], statements: &[u32], from: usize, h: usize) -> bool
    requires { (from < 2 ^ 40) × (h < 65536) }
    ensures { result ≡ any (lacks_float file.now symbols.now statements.now (rows (u32 file.now) 4 h from)) (rows (u32 file.now) 4 h from) }
{
    for i in 0..h {
        let s = u32_at(file, from + 4 * i);
        if lacks_float(file, symbols, statements, from, h, s) {
            return true;
        }
    }
    false
}

// Statement s is a $f whose variable has a listed $f before it.
fn is_second_float(file: &[u8], statements: &[u32], from: usize, h: usize, s: usize) -> bool
    requires { (from < 2 ^ 40) × (h < 65536) }
    ensures { result ≡ second_float file.now statements.now (rows (u32 file.now) 4 h from) s }
{
    let at = entry(statements, s);
    kind_at(file, at) == 2 && has_float(file, statements, from, h, s, float_variable(file, at))
}

// One of the h listed hypotheses from `from` on is such a $f.
fn has_second_float(file: &[u8], statements: &[u32], from: usize, h: usize) -> bool
    requires { (from < 2 ^ 40) × (h < 65536) }
    ensures { result ≡ any (second_float file.now statements.now (rows (u32 file.now) 4 h from)) (rows (u32 file.now) 4 h from) }
{
    for i in 0..h {
        let s = u32_at(file, from + 4 * i);
        if is_second_float(file, statements, from, h, s) {
            return true;
        }
    }
    false
}

// One of the d pairs from `from` on has equal members.
fn has_equal_pair(file: &[u8], from: usize, d: usize) -> bool
    requires { (from < 2 ^ 40) × (d < 65536) }
    ensures { result ≡ any equal_members (rows (pair_at file.now) 4 d from) }
{
    for i in 0..d {
        let k = from + 4 * i;
        if u16_at(file, k) == u16_at(file, k + 2) {
            return true;
        }
    }
    false
}

// Row 6 for a $a or $p.
fn bad_assertion(file: &[u8], symbols: &[u32], statements: &[u32], at: u32) -> bool
    ensures { result ≡ bad_assertion file.now symbols.now statements.now at }
{
    let from = lists_from(file, at);
    let h = hyp_count(file, at);
    !are_given(file, symbols, statements, from, h, statements.len(), at)
        || one_lacks_float(file, symbols, statements, from, h)
        || has_second_float(file, statements, from, h)
        || has_equal_pair(file, pairs_from(file, at), pair_count(file, at))
}

// 6 BadFrame.
pub fn bad_frame(file: &[u8], symbols: &[u32], statements: &[u32], at: u32) -> bool
    ensures { result ≡ bad_frame file.now symbols.now statements.now at }
{
    is_assertion(kind_at(file, at)) && bad_assertion(file, symbols, statements, at)
}
