// A port of parts of src/verify.rs of metamath-rs 0.3.9 (subst_info, do_substitute_vars), changed (see NOTICE).
// The table of a substitution, by the number of a symbol: where the image of a variable stands in the pool, and the set of the numbers
// of the variables that occur in it, as many words a symbol as a set has.
ghost use Rattle.std.specs.Prelude.{◌≡◌, ◌<◌, set, drop};
ghost use Rattle.frames.specs.Layout.{symbols_at};
ghost use Rattle.packed.specs.Images.{set_of, store_set, Included, Gathered};
ghost use Rattle.packed.specs.Lists.{Gathers};

use bitset::Bitset;
use frames::fields::class;
use frames::numbers::SymbolNo;
use frames::read::u16_at;
use frames::record::{symbol_count, symbols_from};
use frames::refer::{entry, lay};

// The set of the image of symbol s.
pub fn image_set(sets: &[u64], s: SymbolNo) -> Bitset
    requires { s.0 < 65536 }
    ensures { result.words ≡ set_of sets.now s.0 }
{
    Bitset::from_table(sets, Bitset::WORDS * s.0)
}

// Lays the set of the image of symbol s. (Four stores, as the definition has them: each past the table's end is left out alone, which the
// copy of a slice could not do, and a loop over a constant count is no plainer.)
fn lay_set(sets: &mut [u64], s: SymbolNo, vars: Bitset)
    requires { s.0 < 65536 }
    ensures { sets.new ≡ store_set sets.old s.0 vars.words }
{
    let from = Bitset::WORDS * s.0;
    lay(sets, from, vars.words[0]);
    lay(sets, from + 1, vars.words[1]);
    lay(sets, from + 2, vars.words[2]);
    lay(sets, from + 3, vars.words[3]);
}

// Binds symbol s to the range of the pool from `from` up to `to`, in which the variables of the set `vars` occur.
pub fn bind(
    froms: &mut [u32],
    tos: &mut [u32],
    sets: &mut [u64],
    s: SymbolNo,
    from: u32,
    to: u32,
    vars: Bitset,
)
    requires { s.0 < 65536 }
    ensures { (froms.new ≡ set froms.old s.0 from) × ((tos.new ≡ set tos.old s.0 to) × (sets.new ≡ store_set sets.old s.0 vars.words)) }
{
    lay(froms, s.0, from);
    lay(tos, s.0, to);
    lay_set(sets, s, vars);
}

// A set with the members of the image of symbol s, where it is a variable.
fn include(file: &[u8], symbols: &[u32], sets: &[u64], all: Bitset, s: SymbolNo) -> Bitset
    requires { s.0 < 65536 }
    ensures { Included file.now symbols.now sets.now s.0 all.words result.words }
{
    if class(file, entry(symbols, s.0)) == 1 {
        return all.union(image_set(sets, s));
    }
    all
}

// The set of a substituted expression: what the images of its variables have, the typecode left out.
pub fn do_substitute_vars(file: &[u8], symbols: &[u32], at: u32, sets: &[u64]) -> Bitset
    ensures bytes { Gathered file.now symbols.now sets.now (drop 1 (symbols_at file.now at)) result.words }
    ensures lists { Gathers file.now symbols.now at sets.now result.words }
{
    let n = symbol_count(file, at);
    let base = symbols_from(file, at);
    let mut all = Bitset::new();
    for i in 1..n {
        let s = SymbolNo(u16_at(file, base + 2 * i));
        all = include(file, symbols, sets, all, s);
    }
    all
}
