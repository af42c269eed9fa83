// Where the parts of a record lie, read off the file's bytes. A record is named by its offset; every reader is total.
#![tactic(auto, unfolding(crate::specs::Layout::asserts, crate::specs::Layout::supposes, crate::specs::Layout::lists_symbols, crate::specs::Layout::is_statement, crate::specs::Layout::length_at, crate::specs::Layout::kind_at, crate::specs::Layout::next_at, crate::specs::Layout::class_at, crate::specs::Layout::scope_end_at, crate::specs::Layout::hyp_count, crate::specs::Layout::pair_count, crate::specs::Layout::listed_count, crate::specs::Layout::lists_from, crate::specs::Layout::pairs_from, crate::specs::Layout::listed_from, crate::specs::Layout::rest_from, crate::specs::Layout::rest_size, crate::specs::Layout::rest_at, crate::specs::Layout::symbol_count, crate::specs::Layout::symbols_from, crate::specs::Logic::either, crate::specs::Logic::equal, crate::specs::Logic::pick))]

ghost use Rattle.std.specs.Prelude.{◌≡◌, ◌<◌, ◌≤◌, ◌^◌, ◌+◌, get_or};
ghost use Rattle.frames.specs.Layout.{kind_at, length_at, next_at, fixed_size, asserts, supposes, lists_symbols, is_statement, class_at, scope_end_at, hyp_count, pair_count, listed_count, lists_from, pairs_from, listed_from, rest_from, rest_size, rest_at, symbol_count, symbols_from};

use crate::read::{byte_at, part, u16_at, u32_at};

// The fixed part of each body, by the record's kind.
const FIXED: [usize; 7] = [0, 1, 8, 6, 6, 6, 0];

// The size of the fixed part of a body; 0 for a kind that is none.
pub fn fixed_size(kind: usize) -> usize
    ensures { (result ≡ fixed_size kind) × (result ≤ 8) }
{
    FIXED.get(kind).copied().unwrap_or(0)
}

// $a and $p.
pub fn is_assertion(kind: usize) -> bool
    ensures { result ≡ asserts kind }
{
    kind == 4 || kind == 5
}

// $f and $e.
pub fn is_hypothesis(kind: usize) -> bool
    ensures { result ≡ supposes kind }
{
    kind == 2 || kind == 3
}

// $e, $a and $p.
pub fn lists_symbols(kind: usize) -> bool
    ensures { result ≡ lists_symbols kind }
{
    kind == 3 || is_assertion(kind)
}

// $f, $e, $a and $p, the kinds that are numbered as statements.
pub fn is_statement(kind: usize) -> bool
    ensures { result ≡ is_statement kind }
{
    is_hypothesis(kind) || is_assertion(kind)
}

// The length of a record: how many bytes follow its four length bytes.
pub fn length_at(file: &[u8], at: u32) -> usize
    ensures { (result ≡ length_at file.now at) × (result < 4294967296) }
{
    u32_at(file, at as usize)
}

// The kind of a record.
pub fn kind_at(file: &[u8], at: u32) -> usize
    ensures { (result ≡ kind_at file.now at) × (result < 65536) }
{
    u16_at(file, at as usize + 4)
}

// Where the next record begins.
pub fn next_at(file: &[u8], at: u32) -> usize
    ensures { (result ≡ next_at file.now at) × (result < 2 ^ 34) }
{
    at as usize + 4 + length_at(file, at)
}

// The class of a symbol.
pub fn class_at(file: &[u8], at: u32) -> usize
    ensures { (result ≡ class_at file.now at) × (result < 256) }
{
    byte_at(file, at as usize + 6)
}

// The scope end of a $f or $e.
pub fn scope_end_at(file: &[u8], at: u32) -> usize
    ensures { (result ≡ scope_end_at file.now at) × (result < 4294967296) }
{
    u32_at(file, at as usize + 6)
}

// How many hypotheses a $a or $p lists.
pub fn hyp_count(file: &[u8], at: u32) -> usize
    ensures { (result ≡ hyp_count file.now at) × (result < 65536) }
{
    if is_assertion(kind_at(file, at)) {
        u16_at(file, at as usize + 6)
    } else {
        0
    }
}

// How many pairs a $a or $p lists.
pub fn pair_count(file: &[u8], at: u32) -> usize
    ensures { (result ≡ pair_count file.now at) × (result < 65536) }
{
    if is_assertion(kind_at(file, at)) {
        u16_at(file, at as usize + 8)
    } else {
        0
    }
}

// How many symbols a $e, $a or $p lists.
pub fn listed_count(file: &[u8], at: u32) -> usize
    ensures { (result ≡ listed_count file.now at) × (result < 65536) }
{
    if lists_symbols(kind_at(file, at)) {
        u16_at(file, at as usize + 10)
    } else {
        0
    }
}

// The lists follow the fixed part: hypotheses, pairs, symbols.
pub fn lists_from(file: &[u8], at: u32) -> usize
    ensures { (result ≡ lists_from file.now at) × (result < 4294967310) }
{
    at as usize + 6 + fixed_size(kind_at(file, at))
}

// Where the pairs begin.
pub fn pairs_from(file: &[u8], at: u32) -> usize
    ensures { (result ≡ pairs_from file.now at) × (result < 4295300000) }
{
    lists_from(file, at) + 4 * hyp_count(file, at)
}

// Where the symbols of any record begin.
fn any_listed_from(file: &[u8], at: u32) -> usize
    ensures { (result ≡ listed_from file.now at) × (result < 4295600000) }
{
    pairs_from(file, at) + 4 * pair_count(file, at)
}

// The same; those of a $e, $a or $p, whose counts are in the file, are found by one test of the length.
pub fn listed_from(file: &[u8], at: u32) -> usize
    ensures { (result ≡ listed_from file.now at) × (result < 4295600000) }
{
    let o = at as usize;
    if o + 9 < file.len() {
        let kind = kind_at(file, at);
        if kind == 3 {
            return o + 12;
        }
        if is_assertion(kind) {
            return o + 12 + 4 * u16_at(file, o + 6) + 4 * u16_at(file, o + 8);
        }
    }
    any_listed_from(file, at)
}

// A name, a label or a proof's text takes the rest of the body.
pub fn rest_from(file: &[u8], at: u32) -> usize
    ensures { (result ≡ rest_from file.now at) × (result < 2 ^ 33) }
{
    any_listed_from(file, at) + 2 * listed_count(file, at)
}

// How many bytes the rest of the body has.
pub fn rest_size(file: &[u8], at: u32) -> usize
    ensures { (result ≡ rest_size file.now at) × (result < 2 ^ 34) }
{
    next_at(file, at).saturating_sub(rest_from(file, at))
}

// The name of a symbol, for which no lists are counted.
fn symbol_name(file: &[u8], at: u32) -> &[u8]
    requires { kind_at file.now at ≡ 1 }
    ensures { result.now ≡ rest_at file.now at }
{
    part(file, at as usize + 7, length_at(file, at).saturating_sub(3))
}

// The name, label or text of any record.
pub fn any_rest_at(file: &[u8], at: u32) -> &[u8]
    ensures { result.now ≡ rest_at file.now at }
{
    part(file, rest_from(file, at), rest_size(file, at))
}

// The same; a symbol's name is found without counting lists.
pub fn rest_at(file: &[u8], at: u32) -> &[u8]
    ensures { result.now ≡ rest_at file.now at }
{
    if at as usize + 5 < file.len() && kind_at(file, at) == 1 {
        symbol_name(file, at)
    } else {
        any_rest_at(file, at)
    }
}

// The symbols of a statement, the typecode first; those of a $f are its typecode and its variable.
pub fn symbol_count(file: &[u8], at: u32) -> usize
    ensures { (result ≡ symbol_count file.now at) × (result < 65536) }
{
    if kind_at(file, at) == 2 {
        2
    } else {
        listed_count(file, at)
    }
}

// Where the symbols of a statement begin.
pub fn symbols_from(file: &[u8], at: u32) -> usize
    ensures { (result ≡ symbols_from file.now at) × (result < 2 ^ 33) }
{
    if kind_at(file, at) == 2 {
        at as usize + 10
    } else {
        listed_from(file, at)
    }
}
