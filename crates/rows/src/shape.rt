// Rows 1 and 2: the shape of a record, and the limits.
#![tactic(auto, unfolding(frames::specs::Table::unknown_kind, frames::specs::Table::bad_rest, frames::specs::Table::no_symbols, frames::specs::Table::off_layout, frames::specs::Table::bad_record, frames::specs::Table::cut_short, frames::specs::Table::too_many, frames::specs::Logic::one_of, frames::specs::Logic::either, frames::specs::Logic::both, frames::specs::Logic::no, frames::specs::Logic::equal, frames::specs::Logic::below, frames::specs::Logic::at_most))]

ghost use Rattle.std.specs.Prelude.{◌≡◌};
ghost use Rattle.frames.specs.Table.{unknown_kind, bad_rest, no_symbols, off_layout, bad_record, too_many};

use frames::record::{
    class_at, hyp_count, is_statement, kind_at, length_at, listed_count, lists_symbols, next_at,
    pair_count, rest_from, rest_size,
};

// Kinds are 1 to 6.
fn unknown_kind(kind: usize) -> bool
    ensures { result ≡ unknown_kind kind }
{
    kind == 0 || 6 < kind
}

// A name or label does not have 1 to 64 bytes.
fn bad_rest(kind: usize, size: usize) -> bool
    ensures { result ≡ bad_rest kind size }
{
    kind != 6 && (size == 0 || 64 < size)
}

// n is 0 where it must be at least 1.
fn no_symbols(kind: usize, n: usize) -> bool
    ensures { result ≡ no_symbols kind n }
{
    lists_symbols(kind) && n == 0
}

// The body is not of its layout: its fixed part and lists do not fit, n is 0, or its name or label has not 1 to 64 bytes.
fn off_layout(file: &[u8], at: u32) -> bool
    ensures { result ≡ off_layout file.now at }
{
    let kind = kind_at(file, at);
    next_at(file, at) < rest_from(file, at)
        || no_symbols(kind, listed_count(file, at))
        || bad_rest(kind, rest_size(file, at))
}

// 1 BadRecord.
pub fn bad_record(file: &[u8], at: u32) -> bool
    ensures { result ≡ bad_record file.now at }
{
    let kind = kind_at(file, at);
    file.len() < next_at(file, at)
        || length_at(file, at) < 2
        || unknown_kind(kind)
        || (kind == 1 && 1 < class_at(file, at))
        || off_layout(file, at)
}

// 2 TooMany.
pub fn too_many(file: &[u8], symbols: &[u32], statements: &[u32], at: u32) -> bool
    ensures { result ≡ too_many file.now symbols.now statements.now at }
{
    let kind = kind_at(file, at);
    (kind == 1 && 4096 <= symbols.len())
        || (is_statement(kind) && 4096 <= statements.len())
        || 64 < hyp_count(file, at)
        || 512 < pair_count(file, at)
        || 1024 < listed_count(file, at)
        || (kind == 6 && 65536 < rest_size(file, at))
}
