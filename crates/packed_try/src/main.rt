// Tries the functions over the pool on the frame file on standard input: for each $a and $p its variables are bound to texts of earlier
// statements and its symbols substituted, compared, copied and left out for want of room. A line tells what came out; the form of a line and the
// choice of the texts are told in tests/packed/make_try.py, which works out the expected lines by itself.
#![tactic(auto)]

use bitset::{Bitset, BitsetIter};
use frames::fields;
use frames::numbers::SymbolNo;
use frames::record::is_assertion;
use frames::refer::entry;
use packed::images;
use replaying::{Out, STDIN_FILENO};
use std::io::Write;

// A good file with the tables that its check filled: where each symbol and each statement lies, and how many statements there are.
#[derive(Clone, Copy)]
struct Good<'a> {
    file: &'a [u8],
    symbols: &'a [u32],
    statements: &'a [u32],
    count: usize,
}

// A number, with a space before it.
fn say(n: usize) {
    let _ = write!(Out, " {n}");
}

// A place in a table of places.
fn place(n: usize) -> u32 {
    u32::try_from(n).unwrap_or(u32::MAX)
}

// How far the pool is used: as the answer says, and as before where it names no place.
fn kept(answer: usize, used: usize, room: usize) -> usize {
    if answer <= room { answer } else { used }
}

// One byte more in a checksum.
fn mix(sum: u16, b: u8) -> u16 {
    ((sum as usize * 31 + b as usize) % 65521) as u16
}

// The checksum of a range of the pool.
fn checksum(pool: &[u8], from: usize, to: usize) -> u16 {
    pool.iter()
        .take(to)
        .skip(from)
        .fold(0, |sum, &b| mix(sum, b))
}

// The length and the checksum of a range.
fn say_range(pool: &[u8], from: usize, to: usize) {
    say(to.wrapping_sub(from));
    say(checksum(pool, from, to) as usize);
}

// How many members a set has, and their sum.
fn say_members(members: BitsetIter) {
    say(members.count());
    say(members.fold(0, |sum, n| sum.wrapping_add(n)));
}

// Binds a symbol, if its number is one. The three tables are no struct: of one behind a `&mut` the check lends one field at a time.
fn bind(
    froms: &mut [u32],
    tos: &mut [u32],
    sets: &mut [u64],
    s: usize,
    from: usize,
    to: usize,
    vars: Bitset,
) {
    if s < 65536 {
        images::bind(froms, tos, sets, SymbolNo(s), place(from), place(to), vars);
    }
}

// Binds every symbol to the empty text.
fn clear(froms: &mut [u32], tos: &mut [u32], sets: &mut [u64]) {
    for s in 0..4096 {
        bind(froms, tos, sets, s, 0, 0, Bitset::new());
    }
}

// The statement whose symbols are the image for the i-th hypothesis of statement p.
fn source(p: usize, i: usize) -> usize {
    if p == 0 {
        return 0;
    }
    (p / 2 + i / 3) % p
}

// The set that goes with that image.
fn set_for(p: usize, i: usize) -> Bitset {
    Bitset::new()
        .set_bit(i)
        .set_bit(p % 256)
        .set_bit(255 - i % 64)
}

// Binds the variable of the i-th hypothesis of statement p, where it is a $f, and answers how far the pool is then used.
fn bind_one(
    good: Good<'_>,
    p: usize,
    i: usize,
    pool: &mut [u8],
    used: usize,
    froms: &mut [u32],
    tos: &mut [u32],
    sets: &mut [u64],
) -> usize {
    let h = fields::hypothesis(good.file, entry(good.statements, p), i);
    let at = fields::statement_offset(good.statements, h);
    if fields::kind(good.file, at) != 2 {
        return used;
    }
    let v = fields::variable(good.file, at);
    let room = pool.len();
    let text = entry(good.statements, source(p, i));
    let answer = packed_calls::packed_spell(good.file, good.symbols, text, pool, used, room);
    let end = kept(answer, used, room);
    bind(froms, tos, sets, v.0, used, end, set_for(p, i));
    end
}

// Binds the variables of all listed $f, and answers how far the pool is then used.
fn bind_all(
    good: Good<'_>,
    p: usize,
    pool: &mut [u8],
    froms: &mut [u32],
    tos: &mut [u32],
    sets: &mut [u64],
) -> usize {
    clear(froms, tos, sets);
    let mut used = 0;
    for i in 0..fields::hypotheses(good.file, entry(good.statements, p)) {
        used = bind_one(good, p, i, pool, used, froms, tos, sets);
    }
    used
}

// Of how many statements a range is the symbols as substituted.
fn others(
    good: Good<'_>,
    froms: &[u32],
    tos: &[u32],
    pool: &[u8],
    from: usize,
    to: usize,
) -> usize {
    let is_other = |q: &usize| {
        let at = entry(good.statements, *q);
        packed_calls::packed_is_substituted(good.file, good.symbols, at, froms, tos, pool, from, to)
            == 1
    };
    (0..good.count).filter(is_other).count()
}

// How many statements have a range as their symbols.
fn raws(good: Good<'_>, pool: &[u8], from: usize, to: usize) -> usize {
    let is_raw = |q: &usize| {
        let at = entry(good.statements, *q);
        packed_calls::packed_is_spelled(good.file, good.symbols, at, pool, from, to) == 1
    };
    (0..good.count).filter(is_raw).count()
}

// Where the two texts of a statement end: its symbols as substituted, and after them its symbols as they are.
#[derive(Clone, Copy)]
struct Texts {
    end: usize,
    last: usize,
}

// Writes the two texts into the pool.
fn write_texts(
    good: Good<'_>,
    at: u32,
    froms: &[u32],
    tos: &[u32],
    pool: &mut [u8],
    used: usize,
) -> Texts {
    let file = good.file;
    let symbols = good.symbols;
    let room = pool.len();
    let text = packed_calls::packed_substitute(file, symbols, at, froms, tos, pool, used, room);
    let end = kept(text, used, room);
    let raw = packed_calls::packed_spell(file, symbols, at, pool, end, room);
    let last = kept(raw, end, room);
    Texts { end, last }
}

// Tells what is in the pool, and what the comparisons say.
fn tell(
    good: Good<'_>,
    at: u32,
    froms: &[u32],
    tos: &[u32],
    pool: &[u8],
    used: usize,
    texts: Texts,
) {
    let Texts { end, last } = texts;
    let file = good.file;
    let symbols = good.symbols;
    say_range(pool, 0, used);
    say_range(pool, used, end);
    say(packed_calls::packed_is_substituted(file, symbols, at, froms, tos, pool, used, end));
    say(others(good, froms, tos, pool, used, end));
    say(raws(good, pool, end, last));
}

// The variable of the first hypothesis that a statement lists, where that is a $f; else a number that no symbol has.
fn first_variable(good: Good<'_>, at: u32) -> usize {
    if fields::hypotheses(good.file, at) == 0 {
        return 65536;
    }
    let h = fields::statement_offset(good.statements, fields::hypothesis(good.file, at, 0));
    if fields::kind(good.file, h) != 2 {
        return 65536;
    }
    fields::variable(good.file, h).0
}

// Tells whether there is no room where one byte is wanting, and whether a turned image of symbol s is refused.
fn try_limits(
    good: Good<'_>,
    at: u32,
    s: usize,
    froms: &mut [u32],
    tos: &mut [u32],
    sets: &mut [u64],
    pool: &mut [u8],
    used: usize,
    end: usize,
) {
    let file = good.file;
    let symbols = good.symbols;
    let short = end.wrapping_sub(1);
    let less = packed_calls::packed_substitute(file, symbols, at, froms, tos, pool, used, short);
    say(usize::from(less == packed_calls::FULL));
    bind(froms, tos, sets, s, 1, 0, Bitset::new());
    let turned = packed_calls::packed_substitute(file, symbols, at, froms, tos, pool, used, end);
    say(usize::from(turned == packed_calls::REFUSED));
}

// Tells the members of the set of the symbols as substituted.
fn tell_vars(good: Good<'_>, at: u32, sets: &[u64]) {
    let vars = images::do_substitute_vars(good.file, good.symbols, at, sets);
    say_members(vars.iter());
}

// Copies the text from `used` up to `end` behind itself and tells what stands there, whether there is no room where one byte is wanting, and
// whether a range that is turned round is refused.
fn try_copy(pool: &mut [u8], used: usize, end: usize) {
    let room = pool.len();
    let answer = packed_calls::packed_copy(pool, end, room, used, end);
    let last = kept(answer, end, room);
    say_range(pool, end, last);
    let short = last.wrapping_sub(1);
    let less = packed_calls::packed_copy(pool, end, short, used, end);
    say(usize::from(less == packed_calls::FULL));
    let turned = packed_calls::packed_copy(pool, end, room, end, used);
    say(usize::from(turned == packed_calls::REFUSED));
}

// Writes the two texts, tells what they are and what a copy of the first is, and answers where the first ends.
fn try_texts(
    good: Good<'_>,
    at: u32,
    froms: &[u32],
    tos: &[u32],
    pool: &mut [u8],
    used: usize,
) -> usize {
    let texts = write_texts(good, at, froms, tos, pool, used);
    tell(good, at, froms, tos, pool, used, texts);
    try_copy(pool, used, texts.end);
    texts.end
}

// Tries the statement at `at`, whose variables are bound.
fn try_bound(
    good: Good<'_>,
    at: u32,
    pool: &mut [u8],
    used: usize,
    froms: &mut [u32],
    tos: &mut [u32],
    sets: &mut [u64],
) {
    let end = try_texts(good, at, froms, tos, pool, used);
    tell_vars(good, at, sets);
    let s = first_variable(good, at);
    try_limits(good, at, s, froms, tos, sets, pool, used, end);
}

// Tries statement p, where it is a $a or $p.
fn try_one(
    good: Good<'_>,
    p: usize,
    pool: &mut [u8],
    froms: &mut [u32],
    tos: &mut [u32],
    sets: &mut [u64],
) {
    let at = entry(good.statements, p);
    if is_assertion(fields::kind(good.file, at)) {
        let _ = Out.write_all(fields::label(good.file, at));
        let used = bind_all(good, p, pool, froms, tos, sets);
        try_bound(good, at, pool, used, froms, tos, sets);
        let _ = writeln!(Out);
    }
}

// Tries all statements of a good file, in order, with room lent for the pool and the table of images.
fn try_good(good: Good<'_>) {
    let mut pool = [0; 65536];
    let mut froms = [0; 4096];
    let mut tos = [0; 4096];
    // The sets of 4,096 symbols.
    let mut sets = [0; 16384];
    for p in 0..good.count {
        try_one(good, p, &mut pool, &mut froms, &mut tos, &mut sets);
    }
}

// Has a file checked, and tries it where it is good.
fn try_file(file: &[u8]) {
    let mut symbols = [0; 4096];
    let mut statements = [0; 4096];
    match filecheck::check(file, &mut symbols, &mut statements) {
        Ok(sizes) => try_good(Good {
            file,
            symbols: &symbols,
            statements: &statements,
            count: sizes.statements,
        }),
        Err(_) => {
            let _ = writeln!(Out, "refused");
        }
    }
}

fn main() {
    // A file of at most 65,536 bytes, and one byte more.
    let mut input = [0; 65537];
    let n = io::read_full(STDIN_FILENO, &mut input);
    try_file(&input[..n]);
}
