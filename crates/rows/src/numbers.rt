// Row 5: what the numbers of a statement refer to.
#![tactic(auto, unfolding(frames::specs::Layout::pair_at, frames::specs::Layout::symbols_at, frames::specs::Layout::pairs_at, frames::specs::Layout::hyps_at, frames::specs::Table::variables, frames::specs::Table::bad_numbers, frames::specs::Table::bad_reference, frames::specs::Logic::both, frames::specs::Logic::one_of, frames::specs::Logic::either, frames::specs::Logic::no, frames::specs::Logic::equal))]

ghost use Rattle.std.specs.Prelude.{◌≡◌, ◌<◌, ◌^◌, length};
ghost use Rattle.frames.specs.Logic.{all, rising_from, rows};
ghost use Rattle.frames.specs.Layout.{u16, u32, pair_at, hyps_at, pairs_at, symbols_at};
ghost use Rattle.frames.specs.Table.{active, defined, variables, bad_numbers, bad_reference};

use frames::numbers::{StatementNo, SymbolNo};
use frames::read::{u16_at, u32_at};
use frames::record::{
    hyp_count, is_statement, kind_at, lists_from, pair_count, pairs_from, symbol_count,
    symbols_from,
};
use frames::refer::{float_variable, is_active, is_constant, is_variable, typecode};

// Each of the n symbol numbers from `from` on is defined earlier.
fn all_defined(file: &[u8], symbols: &[u32], from: usize, n: usize) -> bool
    requires { (from < 2 ^ 40) × (n < 65536) }
    ensures { result ≡ all (defined symbols.now) (rows (u16 file.now) 2 n from) }
{
    for i in 0..n {
        if u16_at(file, from + 2 * i) >= symbols.len() {
            return false;
        }
    }
    true
}

// Both members of the pair at `from` are variables.
fn are_variables(file: &[u8], symbols: &[u32], from: usize) -> bool
    requires { from < 2 ^ 42 }
    ensures { result ≡ variables file.now symbols.now (pair_at file.now from) }
{
    is_variable(file, symbols, SymbolNo(u16_at(file, from)))
        && is_variable(file, symbols, SymbolNo(u16_at(file, from + 2)))
}

// Both members of each of the d pairs from `from` on are variables.
fn all_variables(file: &[u8], symbols: &[u32], from: usize, d: usize) -> bool
    requires { (from < 2 ^ 40) × (d < 65536) }
    ensures { result ≡ all (variables file.now symbols.now) (rows (pair_at file.now) 4 d from) }
{
    for i in 0..d {
        if !are_variables(file, symbols, from + 4 * i) {
            return false;
        }
    }
    true
}

// The h statement numbers from `from` on rise strictly.
fn rises(file: &[u8], from: usize, h: usize) -> bool
    requires { (from < 2 ^ 40) × (h < 65536) }
    ensures { result ≡ rising_from 0 (rows (u32 file.now) 4 h from) }
{
    let mut low = 0;
    for i in 0..h {
        let s = u32_at(file, from + 4 * i);
        if s < low {
            return false;
        }
        low = s + 1;
    }
    true
}

// Each of the h statement numbers from `from` on is that of an active $f or $e.
fn all_active(file: &[u8], statements: &[u32], from: usize, h: usize) -> bool
    requires { (from < 2 ^ 40) × (h < 65536) }
    ensures { result ≡ all (active file.now statements.now (length statements.now)) (rows (u32 file.now) 4 h from) }
{
    let own = statements.len();
    for i in 0..h {
        let s = u32_at(file, from + 4 * i);
        if !is_active(file, statements, StatementNo(own), StatementNo(s)) {
            return false;
        }
    }
    true
}

// Each symbol of the statement at `at` is defined earlier.
fn symbols_defined(file: &[u8], symbols: &[u32], at: u32) -> bool
    ensures { result ≡ all (defined symbols.now) (symbols_at file.now at) }
{
    all_defined(
        file,
        symbols,
        symbols_from(file, at),
        symbol_count(file, at),
    )
}

// Each pair of the statement at `at` is one of variables.
fn pairs_variables(file: &[u8], symbols: &[u32], at: u32) -> bool
    ensures { result ≡ all (variables file.now symbols.now) (pairs_at file.now at) }
{
    all_variables(file, symbols, pairs_from(file, at), pair_count(file, at))
}

// The hypotheses of the statement at `at` rise strictly.
fn hyps_rise(file: &[u8], at: u32) -> bool
    ensures { result ≡ rising_from 0 (hyps_at file.now at) }
{
    rises(file, lists_from(file, at), hyp_count(file, at))
}

// The hypotheses of the statement at `at`, whose number is the next one, are active $f and $e.
fn hyps_active(file: &[u8], statements: &[u32], at: u32) -> bool
    ensures { result ≡ all (active file.now statements.now (length statements.now)) (hyps_at file.now at) }
{
    all_active(file, statements, lists_from(file, at), hyp_count(file, at))
}

// Row 5 for a statement.
fn bad_numbers(file: &[u8], symbols: &[u32], statements: &[u32], at: u32) -> bool
    ensures { result ≡ bad_numbers file.now symbols.now statements.now at }
{
    !symbols_defined(file, symbols, at)
        || !is_constant(file, symbols, typecode(file, at))
        || (kind_at(file, at) == 2 && !is_variable(file, symbols, float_variable(file, at)))
        || !pairs_variables(file, symbols, at)
        || !hyps_rise(file, at)
        || !hyps_active(file, statements, at)
}

// 5 BadReference.
pub fn bad_reference(file: &[u8], symbols: &[u32], statements: &[u32], at: u32) -> bool
    ensures { result ≡ bad_reference file.now symbols.now statements.now at }
{
    is_statement(kind_at(file, at)) && bad_numbers(file, symbols, statements, at)
}
