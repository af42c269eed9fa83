// A port of parts of src/verify.rs of metamath-rs 0.3.9 (do_substitute, do_substitute_raw), changed (see NOTICE).
// Substituting into the pool: the symbols of a statement, read where they lie in the file, each constant by its name and each variable
// by its image, or all of them by their names.
ghost use Rattle.std.specs.Prelude.{◌≡◌, [], ◌∷◌, ◌≤◌, length, drop};
ghost use Rattle.frames.specs.Layout.{symbols_at};
ghost use Rattle.packed.specs.Lists.{Substitutes, Spells};
ghost use Rattle.packed.specs.Pool.{Adds, piece, spelled, joined, Imaged};

use crate::pool::{add_name, add_range};
use frames::fields;
use frames::numbers::SymbolNo;
use frames::read::u16_at;
use frames::record::{symbol_count, symbols_from};
use frames::refer::entry;

// Adds the name of symbol s.
fn add_symbol(
    file: &[u8],
    symbols: &[u32],
    s: SymbolNo,
    pool: &mut [u8],
    used: usize,
    limit: usize,
) -> Option<usize>
    requires { (used ≤ limit) × (limit ≤ length pool.old) }
    ensures { Adds (spelled file.now symbols.now s.0) used limit pool.old pool.new result }
{
    let name = fields::name(file, entry(symbols, s.0));
    add_name(pool, used, limit, name)
}

// Adds what stands for symbol s: the image of a variable, the name of a constant.
fn add_piece(
    file: &[u8],
    symbols: &[u32],
    froms: &[u32],
    tos: &[u32],
    s: SymbolNo,
    pool: &mut [u8],
    used: usize,
    limit: usize,
) -> Option<usize>
    requires used_le_limit { (used ≤ limit) × (limit ≤ length pool.old) }
    requires imaged { Imaged file.now symbols.now froms.now tos.now used (s.0 ∷ []) }
    ensures { Adds (piece file.now symbols.now froms.now tos.now pool.old s.0) used limit pool.old pool.new result }
{
    if fields::class(file, entry(symbols, s.0)) == 1 {
        let from = entry(froms, s.0) as usize;
        let to = entry(tos, s.0) as usize;
        return add_range(pool, used, limit, from, to);
    }
    add_symbol(file, symbols, s, pool, used, limit)
}

// Adds the symbols of the statement at `at`, its typecode left out, with each variable replaced by its image: as bytes, and for lists
// of symbols the packed text of what the book's substitution gives.
pub fn do_substitute(
    file: &[u8],
    symbols: &[u32],
    at: u32,
    froms: &[u32],
    tos: &[u32],
    pool: &mut [u8],
    used: usize,
    limit: usize,
) -> Option<usize>
    requires used_le_limit { (used ≤ limit) × (limit ≤ length pool.old) }
    requires imaged { Imaged file.now symbols.now froms.now tos.now used (drop 1 (symbols_at file.now at)) }
    ensures bytes { Adds (joined (piece file.now symbols.now froms.now tos.now pool.old) (drop 1 (symbols_at file.now at))) used limit pool.old pool.new result }
    ensures lists { Substitutes file.now symbols.now at froms.now tos.now used limit pool.old pool.new result }
{
    let n = symbol_count(file, at);
    let base = symbols_from(file, at);
    let mut end = used;
    for i in 1..n {
        let s = SymbolNo(u16_at(file, base + 2 * i));
        end = add_piece(file, symbols, froms, tos, s, pool, end, limit)?;
    }
    Some(end)
}

// Adds the symbols of the statement at `at`, its typecode left out, by their own names.
// (A twin of `do_substitute`: one function would take what adds a symbol as a closure, whose contract, with the images that it asks for and
// leaves as they are, is longer than this loop.)
pub fn do_substitute_raw(
    file: &[u8],
    symbols: &[u32],
    at: u32,
    pool: &mut [u8],
    used: usize,
    limit: usize,
) -> Option<usize>
    requires { (used ≤ limit) × (limit ≤ length pool.old) }
    ensures bytes { Adds (joined (spelled file.now symbols.now) (drop 1 (symbols_at file.now at))) used limit pool.old pool.new result }
    ensures lists { Spells file.now symbols.now at used limit pool.old pool.new result }
{
    let n = symbol_count(file, at);
    let base = symbols_from(file, at);
    let mut end = used;
    for i in 1..n {
        let s = SymbolNo(u16_at(file, base + 2 * i));
        end = add_symbol(file, symbols, s, pool, end, limit)?;
    }
    Some(end)
}
