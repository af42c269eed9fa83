// A port of parts of src/verify.rs of metamath-rs 0.3.9 (prepare_hypothesis), changed (see NOTICE).
// The set of the numbers of the variables that occur in a statement, by their own numbers.
ghost use Rattle.std.specs.Prelude.{◌<◌, drop};
ghost use Rattle.frames.specs.Layout.{symbols_at};
ghost use Rattle.engine.specs.RawSet.{Marks, RawGathered};

use bitset::Bitset;
use frames::fields::class;
use frames::numbers::SymbolNo;
use frames::read::u16_at;
use frames::record::{symbol_count, symbols_from};
use frames::refer::entry;

// The set with the number of symbol s, if it is a variable that has one.
fn mark_symbol(file: &[u8], symbols: &[u32], numbers: &[u32], all: Bitset, s: SymbolNo) -> Bitset
    ensures { Marks file.now symbols.now numbers.now s.0 all.words result.words }
{
    if class(file, entry(symbols, s.0)) == 1 {
        let n = entry(numbers, s.0);
        if 0 < n {
            return all.set_bit(n as usize - 1);
        }
    }
    all
}

// The set of the numbers of the variables among the symbols of the statement at `at`, its typecode left out.
pub fn raw_set(file: &[u8], symbols: &[u32], numbers: &[u32], at: u32) -> Bitset
    ensures { RawGathered file.now symbols.now numbers.now (drop 1 (symbols_at file.now at)) result.words }
{
    let base = symbols_from(file, at);
    let mut all = Bitset::new();
    for i in 1..symbol_count(file, at) {
        let s = SymbolNo(u16_at(file, base + 2 * i));
        all = mark_symbol(file, symbols, numbers, all, s);
    }
    all
}
