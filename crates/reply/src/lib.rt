// What the program `check_proofs` writes for an input: `checked N` and a line `LABEL NUMBER PLACE STEPS` for each $p in file order; for a bad file
// `refused NUMBER PLACE`. An input of more than 65,536 bytes is `refused 2 0`.
#![tactic(auto)]

ghost use Rattle.std.specs.Prelude.{◌≡◌, ◌<◌, ◌≤◌, length, take};
ghost use Rattle.io.specs.Counts.{IsPrefixLen};
ghost use Rattle.frames.specs.Logic.{equal};
ghost use Rattle.frames.specs.Verdict.{verdict};
ghost use Rattle.frames.specs.Database.{database};
ghost use Rattle.frames.specs.Facts.{statement_of};
ghost use Rattle.packed.specs.Pool.{Adds};
ghost use Rattle.lines.specs.Extends.{and_then, Extends};
ghost use Rattle.walk.specs.Walk.{provable, answer_word};
ghost use Rattle.reply.specs.Output.{greatest, proof_line, proof_lines, checked_text, text_of, output_of};
ghost use Rattle.reply.specs.Replies.{Listed, Held, Counted};

use answers::{number_in, place_in, steps_in};
use filecheck::check;
use frames::fields;
use frames::numbers::StatementNo;
use lines::{put_answer, put_checked, put_refused};
use proving::OFFSETS;
use std::io::Read;
use walk::{Walked, verify_all};

// The descriptors of standard input and output.
const STDIN_FILENO: i32 = 0;

const STDOUT_FILENO: i32 = 1;

// Room for one byte more than the program takes, so that a longer input is seen.
pub fn input_room() -> [u8; 65537]
    ensures { length result ≡ 65537 }
{
    [0; 65537]
}

// The greatest pool.
pub fn pool_room() -> [u8; 65536]
    ensures { length result ≡ 65536 }
{
    [0; 65536]
}

// The greatest stack: 1,024 entries of ten words.
pub fn stack_room() -> [u64; 10240]
    ensures { length result ≡ 10240 }
{
    [0; 10240]
}

// The most places: 4,096 of ten words.
pub fn places_room() -> [u64; 40960]
    ensures { length result ≡ 40960 }
{
    [0; 40960]
}

// Room for the answers to the most $p that a file can have.
fn answers_room() -> [u64; 4096]
    ensures { length result ≡ 4096 }
{
    [0; 4096]
}

// Room for all lines: 4,096 of at most 128 bytes, and the first.
fn page() -> [u8; 524352]
    ensures { length result ≡ 524352 }
{
    [0; 524352]
}

// Statement p is a $p.
pub fn is_provable(file: &[u8], statements: &[u32], p: StatementNo) -> bool
    requires { Listed file.now statements.now × (p.0 < length statements.now) }
    ensures { result ≡ equal (statement_of (database file.now) p.0).kind 5 }
{
    let at = fields::statement_offset(statements, p);
    fields::kind(file, at) == 5
}

// Adds the line of statement p, whose answer is this word, after what is there so far.
fn then_answer(
    file: &[u8],
    statements: &[u32],
    p: StatementNo,
    word: u64,
    out: &mut [u8],
    done: Option<usize>,
) -> Option<usize>
    requires listed { Listed file.now statements.now × (p.0 < length statements.now) }
    requires answered { word ≡ answer_word file.now greatest p.0 }
    ensures { Extends (and_then (proof_line file.now p.0)) out.old done out.new result }
{
    let at = done?;
    let offset = fields::statement_offset(statements, p);
    let label = fields::label(file, offset);
    let number = number_in(word);
    let place = place_in(word);
    let steps = steps_in(word);
    put_answer(out, at, label, number, place, steps)
}

// Adds a line for each $p of a good file after what is there so far.
fn then_answers(
    file: &[u8],
    statements: &[u32],
    answers: &[u64],
    out: &mut [u8],
    first: Option<usize>,
) -> Option<usize>
    requires listed { Listed file.now statements.now }
    requires answered { Held file.now answers.now }
    ensures { Extends (and_then (proof_lines file.now)) out.old first out.new result }
{
    let mut done = first;
    let mut taken = 0;
    let mut i = 0;
    while i < statements.len() {
        let p = i;
        i += 1;
        if is_provable(file, statements, StatementNo(p)) {
            done = then_answer(file, statements, StatementNo(p), answers[taken], out, done);
            taken += 1;
        }
    }
    done
}

// Puts the lines of a good file: how many $p it has, and a line for each.
fn put_lines(
    file: &[u8],
    statements: &[u32],
    answers: &[u64],
    count: usize,
    out: &mut [u8],
) -> Option<usize>
    requires listed { Listed file.now statements.now }
    requires answered { Held file.now answers.now × (count ≡ length (provable (database file.now))) }
    ensures { Adds (checked_text file.now) 0 (length out.old) out.old out.new result }
{
    let first = put_checked(out, 0, count);
    then_answers(file, statements, answers, out, first)
}

// How many $p were answered. (A file that is turned away does not come here.)
fn how_many(walked: Walked) -> usize
    ensures { Counted walked result }
{
    walked.unwrap_or(0)
}

// All $p of a good file are answered, with the greatest sizes lent, and their lines are put.
fn reply_good(file: &[u8], statements: &[u32], out: &mut [u8]) -> Option<usize>
    requires { Listed file.now statements.now }
    ensures { Adds (checked_text file.now) 0 (length out.old) out.old out.new result }
{
    let mut pool = pool_room();
    let mut stack = stack_room();
    let mut places = places_room();
    let mut answers = answers_room();
    let walked = verify_all(file, &mut pool, &mut stack, &mut places, &mut answers);
    put_lines(file, statements, &answers, how_many(walked), out)
}

// The file is checked; then its $p, or the line of its refusal.
fn reply_file(file: &[u8], out: &mut [u8]) -> Option<usize>
    ensures { Adds (text_of (verdict file.now) file.now) 0 (length out.old) out.old out.new result }
{
    let mut symbols = [0; OFFSETS];
    let mut statements = [0; OFFSETS];
    match check(file, &mut symbols, &mut statements) {
        Err(away) => put_refused(out, 0, frames::number(away.why), away.place),
        Ok(sizes) => reply_good(file, &statements[..sizes.statements], out),
    }
}

// Puts all that is written for an input into a buffer, if there is room.
fn put_reply(input: &[u8], out: &mut [u8]) -> Option<usize>
    ensures { Adds (output_of input.now) 0 (length out.old) out.old out.new result }
{
    if input.len() > 65536 {
        return put_refused(out, 0, 2, 0);
    }
    reply_file(input, out)
}

// Puts all that is written for an input at the start of out, and answers how many bytes that is. There is always room.
fn put_whole(input: &[u8], out: &mut [u8]) -> usize
    requires { 524352 ≤ length out.old }
    ensures prefix_len { IsPrefixLen result out.new }
    ensures out_after { take result out.new ≡ output_of input.now }
{
    put_reply(input, out).unwrap_or(0)
}

// The same, for the page.
pub fn reply(input: &[u8], out: &mut [u8; 524352]) -> usize
    ensures prefix_len { IsPrefixLen result out.new }
    ensures out_after { take result out.new ≡ output_of input.now }
{
    put_whole(input, out)
}

// Writes the reply to an input.
fn write_reply(input: &[u8]) {
    let mut out = page();
    let n = reply(input, &mut out);
    io::write_all(STDOUT_FILENO, &out[..n]);
}

// All of standard input was read: its n bytes fill the room for it, or one more read meets its end. (io::read_full stops at a failed read as at the end.)
pub fn all_read(rt: &HostRuntime, n: usize) -> bool {
    if n == 65537 {
        return true;
    }
    let mut byte = [0u8; 1];
    match rt.stdin().read(&mut byte) {
        Ok(got) => got == 0,
        Err(_) => false,
    }
}

// Reads standard input and writes the reply to it; nothing where a read fails.
pub fn answer_input(rt: &HostRuntime) {
    let mut input = input_room();
    let n = io::read_full(STDIN_FILENO, &mut input);
    if all_read(rt, n) {
        write_reply(&input[..n]);
    }
}
