// Replays the list of frame files on standard input: unpacks each file, has it checked, and writes its name and verdict.
// The list's form is told in tests/make_cases.py, which writes it and the verdicts that are expected, stated by hand.
#![tactic(auto)]

ghost use Rattle.std.specs.Prelude.{◌≤◌, ◌<◌, length, IsSome};

use replaying::{Out, STDIN_FILENO, STDOUT_FILENO, byte, filled, number, part};
use std::io::Write;

// Puts the next count bytes of the list behind the file's len bytes, as far as the buffer goes.
fn literal(list: &mut &[u8], count: usize, file: &mut [u8], len: usize)
    ensures { length list.new.now ≤ length list.old.now }
{
    let bytes = part(list, count);
    for (i, to) in file.iter_mut().skip(len).take(count).enumerate() {
        *to = bytes.get(i).copied().unwrap_or(0);
    }
}

// Puts the next byte of the list so often behind the file's len bytes, as far as the buffer goes.
fn repeated(list: &mut &[u8], count: usize, file: &mut [u8], len: usize)
    ensures { length list.new.now ≤ length list.old.now }
{
    let b = byte(list);
    for to in file.iter_mut().skip(len).take(count) {
        *to = b;
    }
}

// Unpacks one run behind the file's len bytes and answers how many there are then; None at the file's end.
fn run(list: &mut &[u8], file: &mut [u8], len: usize) -> Option<usize>
    ensures smaller { IsSome result → length list.new.now < length list.old.now }
    ensures shrinks { length list.new.now ≤ length list.old.now }
{
    let kind = byte(list);
    if kind != 1 && kind != 2 {
        return None;
    }
    let count = number(list) as usize;
    if kind == 1 {
        literal(list, count, file, len);
    } else {
        repeated(list, count, file, len);
    }
    Some(len.wrapping_add(count))
}

// Unpacks one file, run by run, behind the bytes that it shares with the one before, and answers how many bytes it has.
fn unpack(list: &mut &[u8], file: &mut [u8], shared: usize) -> usize
    ensures { length list.new.now ≤ length list.old.now }
{
    let mut len = shared;
    while let Some(longer) = run(list, file, len) {
        len = longer;
    }
    len
}

// Has the first bytes of the buffer checked, and writes the verdict.
fn judge(buffer: &[u8], len: usize) {
    let Some(file) = buffer.get(..len) else {
        let _ = writeln!(Out, "is longer than the buffer");
        return;
    };
    let mut symbols = [0; 4096];
    let mut statements = [0; 4096];
    verdict_text::print(
        STDOUT_FILENO,
        filecheck::check(file, &mut symbols, &mut statements),
    );
}

// Unpacks the next file, whose name has so many bytes, and writes its name and its verdict.
fn replay(named: usize, list: &mut &[u8], file: &mut [u8])
    ensures { length list.new.now ≤ length list.old.now }
{
    let name = part(list, named);
    let shared = number(list) as usize;
    let len = unpack(list, file, shared);
    // A name that the list's end cuts is not written.
    if name.len() == named {
        let _ = Out.write_all(name);
    }
    let _ = write!(Out, " ");
    judge(file, len);
}

// Replays the whole list and answers how many files it has.
fn replay_all(list: &[u8], file: &mut [u8]) -> usize {
    let mut rest = list;
    let mut files = 0;
    loop {
        let named = byte(&mut rest);
        if named == 0 {
            return files;
        }
        replay(usize::from(named), &mut rest, file);
        files += 1;
    }
}

fn main() {
    let mut list: [u8; 1048576] = filled(0);
    // Some bytes more than document 01 allows.
    let mut file: [u8; 1048580] = filled(0);
    let n = io::read_full(STDIN_FILENO, &mut list);
    let files = replay_all(&list[..n], &mut file);
    let _ = writeln!(Out, "{files} files");
}
