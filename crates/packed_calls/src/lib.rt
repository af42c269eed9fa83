// The functions over the pool for a caller who proves nothing: each tests its ranges before it works, and answers a number.
// Where bytes are added: how far the pool is then used, FULL where there is no room, REFUSED where the ranges are wrong (the pool is then
// left alone). Where they are compared: 1 the same, 0 not, REFUSED. The crate packed_c exports them for C under the same names.
#![tactic(auto)]

ghost use Rattle.std.specs.Prelude.{◌≡◌, length};
ghost use Rattle.frames.specs.Logic.{both};
ghost use Rattle.packed.specs.Pool.{range};
ghost use Rattle.packed.specs.Lists.{Substitutes, Spells, Compares, ComparesRaw};
ghost use Rattle.packed_calls.specs.Answers.{number_of, truth_of, spelling, substitution, image_within, within, roomed, lies, Answered, compared, Says, Copies};

use frames::fields;
use frames::numbers::SymbolNo;
use frames::read::u16_at;
use frames::record::{symbol_count, symbols_from};
use frames::refer::entry;
use packed::{compare, pool, substitute};

// There is no room. (A number, as the answers are for C.)
pub const FULL: usize = 0xffff_ffff_ffff_ffff;

// The ranges are wrong. (A number, as the answers are for C.)
pub const REFUSED: usize = 0xffff_ffff_ffff_fffe;

// Whether symbol s, where it is a variable, has its image within the first `used` bytes of the pool.
fn image_within(
    file: &[u8],
    symbols: &[u32],
    froms: &[u32],
    tos: &[u32],
    s: SymbolNo,
    used: usize,
) -> bool
    ensures { result ≡ image_within file.now symbols.now froms.now tos.now used s.0 }
{
    if fields::class(file, entry(symbols, s.0)) != 1 {
        return true;
    }
    let from = entry(froms, s.0) as usize;
    let end = entry(tos, s.0) as usize;
    from <= end && end <= used
}

// Whether each variable of the statement at `at` has its image there.
fn imaged(file: &[u8], symbols: &[u32], at: u32, froms: &[u32], tos: &[u32], used: usize) -> bool
    ensures { result ≡ within file.now symbols.now at froms.now tos.now used }
{
    let n = symbol_count(file, at);
    let base = symbols_from(file, at);
    for i in 1..n {
        let s = SymbolNo(u16_at(file, base + 2 * i));
        if !image_within(file, symbols, froms, tos, s, used) {
            return false;
        }
    }
    true
}

// Whether the used part, and the limit after it, lie within the pool.
#[tactic(auto, unfolding(crate::specs::Answers::roomed, frames::specs::Logic::at_most, frames::specs::Logic::both))]
fn roomed(used: usize, limit: usize, pool: &[u8]) -> bool
    ensures { result ≡ roomed used limit pool.now }
{
    used <= limit && limit <= pool.len()
}

// Whether a range lies within so many bytes.
#[tactic(auto, unfolding(crate::specs::Answers::lies, frames::specs::Logic::at_most, frames::specs::Logic::both))]
fn lies(from: usize, to: usize, size: usize) -> bool
    ensures { result ≡ lies from to size }
{
    from <= to && to <= size
}

// The number of an answer.
fn number(grown: Option<usize>) -> usize
    ensures { result ≡ number_of grown }
{
    grown.unwrap_or(FULL)
}

// The number of a truth value.
#[tactic(auto, unfolding(crate::specs::Answers::truth_of))]
fn truth(same: bool) -> usize
    ensures { result ≡ truth_of same }
{
    usize::from(same)
}

// Adds a copy of a range.
pub fn packed_copy(pool: &mut [u8], used: usize, limit: usize, from: usize, to: usize) -> usize
    ensures bytes { Answered (both (roomed used limit pool.old) (lies from to used)) (range from to pool.old) used limit pool.old pool.new result }
    ensures lists { Says (both (roomed used limit pool.old) (lies from to used)) number_of (Copies from to used limit pool.old pool.new) result }
{
    if !roomed(used, limit, pool) || !lies(from, to, used) {
        return REFUSED;
    }
    number(pool::add_range(pool, used, limit, from, to))
}

// Adds the symbols of a statement as substituted.
pub fn packed_substitute(
    file: &[u8],
    symbols: &[u32],
    at: u32,
    froms: &[u32],
    tos: &[u32],
    pool: &mut [u8],
    used: usize,
    limit: usize,
) -> usize
    ensures bytes { Answered (both (roomed used limit pool.old) (within file.now symbols.now at froms.now tos.now used)) (substitution file.now symbols.now at froms.now tos.now pool.old) used limit pool.old pool.new result }
    ensures lists { Says (both (roomed used limit pool.old) (within file.now symbols.now at froms.now tos.now used)) number_of (Substitutes file.now symbols.now at froms.now tos.now used limit pool.old pool.new) result }
{
    if !roomed(used, limit, pool) || !imaged(file, symbols, at, froms, tos, used) {
        return REFUSED;
    }
    number(substitute::do_substitute(file, symbols, at, froms, tos, pool, used, limit))
}

// Adds the symbols of a statement as they are.
pub fn packed_spell(
    file: &[u8],
    symbols: &[u32],
    at: u32,
    pool: &mut [u8],
    used: usize,
    limit: usize,
) -> usize
    ensures bytes { Answered (roomed used limit pool.old) (spelling file.now symbols.now at) used limit pool.old pool.new result }
    ensures lists { Says (roomed used limit pool.old) number_of (Spells file.now symbols.now at used limit pool.old pool.new) result }
{
    if !roomed(used, limit, pool) {
        return REFUSED;
    }
    number(substitute::do_substitute_raw(file, symbols, at, pool, used, limit))
}

// Whether a range is the symbols of a statement as substituted.
pub fn packed_is_substituted(
    file: &[u8],
    symbols: &[u32],
    at: u32,
    froms: &[u32],
    tos: &[u32],
    pool: &[u8],
    from: usize,
    to: usize,
) -> usize
    ensures bytes { result ≡ compared (both (lies from to (length pool.now)) (within file.now symbols.now at froms.now tos.now (length pool.now))) from to pool.now (substitution file.now symbols.now at froms.now tos.now pool.now) }
    ensures lists { Says (both (lies from to (length pool.now)) (within file.now symbols.now at froms.now tos.now (length pool.now))) truth_of (Compares file.now symbols.now at froms.now tos.now pool.now from to) result }
{
    if !lies(from, to, pool.len()) || !imaged(file, symbols, at, froms, tos, pool.len()) {
        return REFUSED;
    }
    truth(compare::do_substitute_eq(file, symbols, at, froms, tos, pool, from, to))
}

// Whether a range is the symbols of a statement as they are.
pub fn packed_is_spelled(
    file: &[u8],
    symbols: &[u32],
    at: u32,
    pool: &[u8],
    from: usize,
    to: usize,
) -> usize
    ensures bytes { result ≡ compared (lies from to (length pool.now)) from to pool.now (spelling file.now symbols.now at) }
    ensures lists { Says (lies from to (length pool.now)) truth_of (ComparesRaw file.now symbols.now at pool.now from to) result }
{
    if !lies(from, to, pool.len()) {
        return REFUSED;
    }
    truth(compare::raw_eq(file, symbols, at, pool, from, to))
}
