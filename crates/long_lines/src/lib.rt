// What the program `longform` writes: for each $p of the frame file on standard input one line, `LABEL: TEXT` or `LABEL refused NUMBER PLACE STEPS`; for a bad
// file `refused NUMBER PLACE`. All lines together can have more than 50 MB, so each is put into a buffer and written before the next one is made.
#![tactic(auto)]

ghost use Rattle.std.specs.Prelude.{◌≡◌, ◌++◌, ◌<◌, ◌≤◌, length, take};
ghost use Rattle.io.specs.Counts.{IsPrefixLen};
ghost use Rattle.packed.specs.Pool.{Adds};
ghost use Rattle.resolve.specs.Filed.{Filed};
ghost use Rattle.long_lines.specs.LongLines.{text_line, refusal_line, line_for, long_line_of};
ghost use Rattle.long_lines.specs.Writing.{Within, Taken};

use filecheck::check;
use frames::numbers::StatementNo;
use frames::{Refusal, TurnedAway, Verdict, fields};
use lines::{add_text, then_number, then_text, then_two};
use long::long_statement;
use proving::OFFSETS;
use reply::{all_read, input_room, is_provable, places_room, pool_room, stack_room};
use told::Told;

// The descriptors of standard input and output.
const STDIN_FILENO: i32 = 0;

const STDOUT_FILENO: i32 = 1;

// The most tree entries that are used.
fn tree_room() -> [u64; 131072]
    ensures { length result ≡ 131072 }
{
    [0; 131072]
}

// Room for the longest line.
fn line_room() -> [u8; 65728]
    ensures { length result ≡ 65728 }
{
    [0; 65728]
}

// Puts a label and a word right after it at the start of out.
fn put_named(out: &mut [u8], label: &[u8], word: &[u8]) -> Option<usize>
    ensures { Adds (label.now ++ word.now) 0 (length out.old) out.old out.new result }
{
    let name = add_text(out, 0, label);
    then_text(out, name, word)
}

// Puts `LABEL: TEXT` at the start of out.
fn put_long(out: &mut [u8], label: &[u8], text: &[u8]) -> Option<usize>
    ensures { Adds (text_line label.now text.now) 0 (length out.old) out.old out.new result }
{
    let name = put_named(out, label, b": ");
    let labels = then_text(out, name, text);
    then_text(out, labels, b"\n")
}

// Puts `LABEL refused NUMBER PLACE STEPS` at the start of out.
fn put_refusal(
    out: &mut [u8],
    label: &[u8],
    number: usize,
    place: usize,
    steps: usize,
) -> Option<usize>
    ensures { Adds (refusal_line label.now number place steps) 0 (length out.old) out.old out.new result }
{
    let name = put_named(out, label, b" refused ");
    let digits = then_number(out, name, number);
    let space = then_text(out, digits, b" ");
    then_two(out, space, place, steps)
}

// Puts the line of what is told of a label. Where that is 0, the text stands at the front of what was lent for it.
fn put_told(out: &mut [u8], label: &[u8], told: Told, text: &[u8]) -> Option<usize>
    requires { Within told text.now }
    ensures { Adds (line_for label.now told.number told.place told.steps (take told.place text.now)) 0 (length out.old) out.old out.new result }
{
    let number = told.number;
    let place = told.place;
    if number == 0 {
        return put_long(out, label, &text[..place]);
    }
    put_refusal(out, label, number, place, told.steps)
}

// Puts the line of statement p, a $p of a checked file, at the start of out. Its long form is made with the greatest sizes lent.
fn put_statement(
    file: &[u8],
    symbols: &[u32],
    statements: &[u32],
    p: StatementNo,
    out: &mut [u8],
) -> Option<usize>
    requires { Filed file.now symbols.now statements.now × (p.0 < length statements.now) }
    ensures { Adds (long_line_of file.now p.0) 0 (length out.old) out.old out.new result }
{
    let mut pool = pool_room();
    let mut stack = stack_room();
    let mut places = places_room();
    let mut tree = tree_room();
    let mut text = pool_room();
    let told = long_statement(
        file,
        symbols,
        statements,
        p,
        &mut pool,
        &mut stack,
        &mut places,
        &mut tree,
        131072,
        &mut text,
    );
    let at = fields::statement_offset(statements, p);
    let label = fields::label(file, at);
    put_told(out, label, told, &text)
}

// The same; answers how many bytes the line has. There is always room.
fn put_line(
    file: &[u8],
    symbols: &[u32],
    statements: &[u32],
    p: StatementNo,
    out: &mut [u8],
) -> usize
    requires filed { Filed file.now symbols.now statements.now × (p.0 < length statements.now) }
    requires room { 65728 ≤ length out.old }
    ensures prefix_len { IsPrefixLen result out.new }
    ensures out_after { take result out.new ≡ long_line_of file.now p.0 }
{
    put_statement(file, symbols, statements, p, out).unwrap_or(0)
}

// Writes the line of statement p, a $p of a checked file.
fn write_line(file: &[u8], symbols: &[u32], statements: &[u32], p: StatementNo)
    requires { Filed file.now symbols.now statements.now × (p.0 < length statements.now) }
{
    let mut out = line_room();
    let n = put_line(file, symbols, statements, p, &mut out);
    io::write_all(STDOUT_FILENO, &out[..n]);
}

// Writes a line for each $p of a checked file, in file order.
fn write_lines(file: &[u8], symbols: &[u32], statements: &[u32])
    requires { Filed file.now symbols.now statements.now }
{
    for i in 0..statements.len() {
        let p = StatementNo(i);
        if is_provable(file, statements, p) {
            write_line(file, symbols, statements, p);
        }
    }
}

// The file check of an input; a longer one is `refused 2 0`.
fn check_input(input: &[u8], symbols: &mut [u32; 4096], statements: &mut [u32; 4096]) -> Verdict
    ensures { Taken input.now symbols.old statements.old symbols.new statements.new result }
{
    if input.len() > 65536 {
        return Err(TurnedAway {
            why: Refusal::TooMany,
            place: 0,
        });
    }
    check(input, symbols, statements)
}

// Writes the line of the file's refusal, or those of its $p.
fn write_reply(input: &[u8]) {
    let mut symbols = [0; OFFSETS];
    let mut statements = [0; OFFSETS];
    match check_input(input, &mut symbols, &mut statements) {
        Err(away) => verdict_text::print(STDOUT_FILENO, Err(away)),
        Ok(sizes) => write_lines(
            input,
            &symbols[..sizes.symbols],
            &statements[..sizes.statements],
        ),
    }
}

// Reads standard input and writes the reply to it; nothing where a read fails.
pub fn answer_input(rt: &HostRuntime) {
    let mut input = input_room();
    let n = io::read_full(STDIN_FILENO, &mut input);
    if all_read(rt, n) {
        write_reply(&input[..n]);
    }
}
