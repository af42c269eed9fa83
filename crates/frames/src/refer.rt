// What the numbers in a record refer to: a symbol's class, a statement's kind, whether a hypothesis is active.
#![tactic(auto, unfolding(crate::specs::Layout::typecode_at, crate::specs::Layout::variable_at, crate::specs::Table::class_of, crate::specs::Table::constant, crate::specs::Table::variable, crate::specs::Table::within, crate::specs::Table::active, crate::specs::Table::float_of, crate::specs::Logic::pick, crate::specs::Logic::below, crate::specs::Logic::equal, crate::specs::Logic::either, crate::specs::Logic::both))]

ghost use Rattle.std.specs.Prelude.{◌≡◌, ◌<◌, get_or, set};
ghost use Rattle.frames.specs.Layout.{symbols_at, hyps_at, pairs_at, typecode_at, variable_at};
ghost use Rattle.frames.specs.Table.{class_of, constant, variable, within, active, float_of};

use crate::numbers::{StatementNo, SymbolNo};
use crate::read::{u16_at, u32_at};
use crate::record::{
    class_at, hyp_count, is_hypothesis, kind_at, lists_from, pair_count, pairs_from, scope_end_at,
    symbol_count, symbols_from,
};

// An entry of a table; `none` past its end.
pub fn entry_or<T: Copy>(table: &[T], i: usize, none: T) -> T
    ensures { result ≡ get_or table.now i none }
{
    table.get(i).copied().unwrap_or(none)
}

// An entry of a table of offsets; 0 past its end.
pub fn entry(table: &[u32], i: usize) -> u32
    ensures { result ≡ get_or table.now i 0 }
{
    entry_or(table, i, 0)
}

// Lays an entry into a table; past the table's end nothing. (Written with `get_mut` it is no plainer, and the check leaves two goals.)
pub fn lay<T: Copy>(table: &mut [T], i: usize, x: T)
    ensures { table.new ≡ set table.old i x }
{
    if i < table.len() {
        table[i] = x;
    }
}

// The i-th symbol of a statement, the typecode first; 0 past the last.
pub fn symbol(file: &[u8], at: u32, i: usize) -> SymbolNo
    ensures { result.0 ≡ get_or (symbols_at file.now at) i 0 }
{
    if i < symbol_count(file, at) {
        SymbolNo(u16_at(file, symbols_from(file, at) + 2 * i))
    } else {
        SymbolNo(0)
    }
}

// The first symbol of a statement.
pub fn typecode(file: &[u8], at: u32) -> SymbolNo
    ensures { result.0 ≡ typecode_at file.now at }
{
    symbol(file, at, 0)
}

// The variable of a $f.
pub fn float_variable(file: &[u8], at: u32) -> SymbolNo
    ensures { result.0 ≡ variable_at file.now at }
{
    symbol(file, at, 1)
}

// The i-th listed hypothesis; 0 past the last.
pub fn hypothesis(file: &[u8], at: u32, i: usize) -> StatementNo
    ensures { result.0 ≡ get_or (hyps_at file.now at) i 0 }
{
    if i < hyp_count(file, at) {
        StatementNo(u32_at(file, lists_from(file, at) + 4 * i))
    } else {
        StatementNo(0)
    }
}

// A pair of symbol numbers.
#[derive(Clone, Copy)]
pub struct Pair {
    pub left: SymbolNo,
    pub right: SymbolNo,
}

// The i-th pair; 0 and 0 past the last.
pub fn pair_of(file: &[u8], at: u32, i: usize) -> Pair
    ensures { (result.left.0, result.right.0) ≡ get_or (pairs_at file.now at) i (0, 0) }
{
    if i < pair_count(file, at) {
        let from = pairs_from(file, at) + 4 * i;
        let left = SymbolNo(u16_at(file, from));
        let right = SymbolNo(u16_at(file, from + 2));
        return Pair { left, right };
    }
    Pair {
        left: SymbolNo(0),
        right: SymbolNo(0),
    }
}

// The class of a symbol: 0 constant, 1 variable, 2 where the number is not defined.
pub fn class_of(file: &[u8], symbols: &[u32], s: SymbolNo) -> usize
    ensures { result ≡ class_of file.now symbols.now s.0 }
{
    match symbols.get(s.0) {
        Some(at) => class_at(file, *at),
        None => 2,
    }
}

// Symbol s is defined and a constant.
pub fn is_constant(file: &[u8], symbols: &[u32], s: SymbolNo) -> bool
    ensures { result ≡ constant file.now symbols.now s.0 }
{
    class_of(file, symbols, s) == 0
}

// Symbol s is defined and a variable.
pub fn is_variable(file: &[u8], symbols: &[u32], s: SymbolNo) -> bool
    ensures { result ≡ variable file.now symbols.now s.0 }
{
    class_of(file, symbols, s) == 1
}

// The scope of a $f or $e reaches statement p: its end is 4294967295 or above p.
fn reaches(end: usize, p: usize) -> bool
    ensures { result ≡ within end p }
{
    end == 4294967295 || p < end
}

// Statement s is a $f or $e that is active at statement p.
pub fn is_active(file: &[u8], statements: &[u32], p: StatementNo, s: StatementNo) -> bool
    ensures { result ≡ active file.now statements.now p.0 s.0 }
{
    let at = entry(statements, s.0);
    s.0 < p.0 && is_hypothesis(kind_at(file, at)) && reaches(scope_end_at(file, at), p.0)
}

// Statement h is a $f of variable v.
pub fn is_float_of(file: &[u8], statements: &[u32], v: SymbolNo, h: StatementNo) -> bool
    ensures { result ≡ float_of file.now statements.now v.0 h.0 }
{
    let at = entry(statements, h.0);
    kind_at(file, at) == 2 && float_variable(file, at) == v
}
