// A port of parts of src/verify.rs of metamath-rs 0.3.9 (do_substitute_eq), changed (see NOTICE).
// Comparing with the pool: a name, a copy within the pool, and the symbols of a statement, substituted or as they are, in one pass.
ghost use Rattle.std.specs.Prelude.{◌≡◌, [], ◌∷◌, ◌+◌, ◌≤◌, ◌<◌, length, drop};
ghost use Rattle.frames.specs.Logic.{same};
ghost use Rattle.frames.specs.Layout.{symbols_at};
ghost use Rattle.packed.specs.Packing.{ended};
ghost use Rattle.packed.specs.Pool.{range, piece, spelled, joined, Imaged};
ghost use Rattle.packed.specs.Compare.{met};
ghost use Rattle.packed.specs.Lists.{Compares, ComparesRaw};

use frames::fields;
use frames::numbers::SymbolNo;
use frames::read::u16_at;
use frames::record::{symbol_count, symbols_from};
use frames::refer::entry;

// Whether the packed name of one byte stands at `at`. Most names are of one byte.
fn matches_byte(pool: &[u8], at: usize, name: &[u8]) -> bool
    requires { (length name.now ≡ 1) × (at < length pool.now) }
    ensures { result ≡ same (ended name.now) (range at (at + length name.now) pool.now) }
{
    let byte = name[0];
    128 + byte % 128 == pool[at]
}

// Whether the packed name stands at `at`.
fn matches_name(pool: &[u8], at: usize, name: &[u8]) -> bool
    requires { at + length name.now ≤ length pool.now }
    ensures { result ≡ same (ended name.now) (range at (at + length name.now) pool.now) }
{
    if name.len() == 1 {
        return matches_byte(pool, at, name);
    }
    let Some((last, front)) = name.split_last() else {
        return true;
    };
    let end = at + front.len();
    128 + *last % 128 == pool[end] && front == &pool[at..end]
}

// Whether the n bytes from `from` on stand at `at` too.
fn matches_range(pool: &[u8], at: usize, from: usize, n: usize) -> bool
    requires { (at + n ≤ length pool.now) × (from + n ≤ length pool.now) }
    ensures { result ≡ same (range from (from + n) pool.now) (range at (at + n) pool.now) }
{
    pool[from..from + n] == pool[at..at + n]
}

// Meets a name in the bytes from `at` up to `to`: where it ends, or none where other bytes stand there.
fn meet_name(pool: &[u8], at: usize, to: usize, name: &[u8]) -> Option<usize>
    requires { (at ≤ to) × (to ≤ length pool.now) }
    ensures { result ≡ met (ended name.now) at to pool.now }
{
    let n = name.len();
    if to - at < n {
        return None;
    }
    if matches_name(pool, at, name) {
        return Some(at + n);
    }
    None
}

// Meets the bytes from `from` up to `end` in those from `at` up to `to`. (A twin of `meet_name`: one function would take the test as a
// closure, and both bodies with its contract are longer than these.)
fn meet_range(pool: &[u8], at: usize, to: usize, from: usize, end: usize) -> Option<usize>
    requires { ((at ≤ to) × (to ≤ length pool.now)) × ((from ≤ end) × (end ≤ length pool.now)) }
    ensures { result ≡ met (range from end pool.now) at to pool.now }
{
    let n = end - from;
    if to - at < n {
        return None;
    }
    if matches_range(pool, at, from, n) {
        return Some(at + n);
    }
    None
}

// Meets what stands for symbol s: the image of a variable, the name of a constant.
fn meet_piece(
    file: &[u8],
    symbols: &[u32],
    froms: &[u32],
    tos: &[u32],
    s: SymbolNo,
    pool: &[u8],
    at: usize,
    to: usize,
) -> Option<usize>
    requires { ((at ≤ to) × (to ≤ length pool.now)) × Imaged file.now symbols.now froms.now tos.now (length pool.now) (s.0 ∷ []) }
    ensures { result ≡ met (piece file.now symbols.now froms.now tos.now pool.now s.0) at to pool.now }
{
    let o = entry(symbols, s.0);
    if fields::class(file, o) == 1 {
        let from = entry(froms, s.0) as usize;
        let end = entry(tos, s.0) as usize;
        return meet_range(pool, at, to, from, end);
    }
    meet_name(pool, at, to, fields::name(file, o))
}

// Whether the bytes from `from` up to `to` are the symbols of the statement at `at`, its typecode left out, each variable replaced by its
// image.
pub fn do_substitute_eq(
    file: &[u8],
    symbols: &[u32],
    at: u32,
    froms: &[u32],
    tos: &[u32],
    pool: &[u8],
    from: usize,
    to: usize,
) -> bool
    requires { ((from ≤ to) × (to ≤ length pool.now)) × Imaged file.now symbols.now froms.now tos.now (length pool.now) (drop 1 (symbols_at file.now at)) }
    ensures bytes { result ≡ same (range from to pool.now) (joined (piece file.now symbols.now froms.now tos.now pool.now) (drop 1 (symbols_at file.now at))) }
    ensures lists { Compares file.now symbols.now at froms.now tos.now pool.now from to result }
{
    let n = symbol_count(file, at);
    let base = symbols_from(file, at);
    let mut c = from;
    for i in 1..n {
        let s = SymbolNo(u16_at(file, base + 2 * i));
        let Some(next) = meet_piece(file, symbols, froms, tos, s, pool, c, to) else {
            return false;
        };
        c = next;
    }
    c == to
}

// Whether the bytes from `from` up to `to` are the symbols of the statement at `at`, its typecode left out, as they are.
// (A twin of `do_substitute_eq`: one function would take what meets a symbol as a closure, whose contract, with the images that it asks for,
// is longer than this loop.)
pub fn raw_eq(file: &[u8], symbols: &[u32], at: u32, pool: &[u8], from: usize, to: usize) -> bool
    requires { (from ≤ to) × (to ≤ length pool.now) }
    ensures bytes { result ≡ same (range from to pool.now) (joined (spelled file.now symbols.now) (drop 1 (symbols_at file.now at))) }
    ensures lists { ComparesRaw file.now symbols.now at pool.now from to result }
{
    let n = symbol_count(file, at);
    let base = symbols_from(file, at);
    let mut d = from;
    for j in 1..n {
        let s = SymbolNo(u16_at(file, base + 2 * j));
        let name = fields::name(file, entry(symbols, s.0));
        let Some(next) = meet_name(pool, d, to, name) else {
            return false;
        };
        d = next;
    }
    d == to
}
