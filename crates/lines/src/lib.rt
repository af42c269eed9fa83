// The lines that the program prints, each put into a lent buffer at a position; the answer is how far the buffer is filled then, or that there is no room.
#![tactic(auto)]

ghost use Rattle.std.specs.Prelude.{◌≡◌, ◌+◌, ◌≤◌, length};
ghost use Rattle.packed.specs.Pool.{written, Adds};
ghost use Rattle.verdict_text.specs.Text.{decimal, refused_line};
ghost use Rattle.lines.specs.Lines.{checked_line, labelled, answer_line};
ghost use Rattle.lines.specs.Extends.{and_then, and_two, Extends};

// Puts a text into the buffer at `at`.
fn put_text(out: &mut [u8], at: usize, text: &[u8])
    requires { at + length text.now ≤ length out.old }
    ensures { out.new ≡ written text.now at out.old }
{
    out[at..at + text.len()].copy_from_slice(text);
}

// Adds a text at `at`, if there is room.
pub fn add_text(out: &mut [u8], at: usize, text: &[u8]) -> Option<usize>
    ensures { Adds text.now at (length out.old) out.old out.new result }
{
    let limit = out.len();
    if limit < at {
        return None;
    }
    let n = text.len();
    if limit - at < n {
        return None;
    }
    put_text(out, at, text);
    Some(at + n)
}

// Adds a text after what is there so far.
pub fn then_text(out: &mut [u8], done: Option<usize>, text: &[u8]) -> Option<usize>
    ensures { Extends (and_then text.now) out.old done out.new result }
{
    add_text(out, done?, text)
}

// Adds the digits of a number after what is there so far.
pub fn then_number(out: &mut [u8], done: Option<usize>, n: usize) -> Option<usize>
    ensures { Extends (and_then (decimal n)) out.old done out.new result }
{
    let mut digits = [0u8; 20];
    let k = io::decimal(n as u64, &mut digits);
    then_text(out, done, &digits[..k])
}

// Ends a line with two numbers.
pub fn then_two(out: &mut [u8], done: Option<usize>, a: usize, b: usize) -> Option<usize>
    ensures { Extends (and_two a b) out.old done out.new result }
{
    let first = then_number(out, done, a);
    let space = then_text(out, first, b" ");
    let second = then_number(out, space, b);
    then_text(out, second, b"\n")
}

// Puts `refused NUMBER PLACE` at `at`.
pub fn put_refused(out: &mut [u8], at: usize, number: usize, place: usize) -> Option<usize>
    ensures { Adds (refused_line number place) at (length out.old) out.old out.new result }
{
    let word = add_text(out, at, b"refused ");
    then_two(out, word, number, place)
}

// Puts `checked N` at `at`.
pub fn put_checked(out: &mut [u8], at: usize, n: usize) -> Option<usize>
    ensures { Adds (checked_line n) at (length out.old) out.old out.new result }
{
    let word = add_text(out, at, b"checked ");
    let number = then_number(out, word, n);
    then_text(out, number, b"\n")
}

// Puts a label and a number, each with a space after it, at `at`.
fn put_label(out: &mut [u8], at: usize, label: &[u8], number: usize) -> Option<usize>
    ensures { Adds (labelled label.now number) at (length out.old) out.old out.new result }
{
    let name = add_text(out, at, label);
    let space = then_text(out, name, b" ");
    let digits = then_number(out, space, number);
    then_text(out, digits, b" ")
}

// Puts `LABEL NUMBER PLACE STEPS` at `at`.
pub fn put_answer(
    out: &mut [u8],
    at: usize,
    label: &[u8],
    number: usize,
    place: usize,
    steps: usize,
) -> Option<usize>
    ensures { Adds (answer_line label.now number place steps) at (length out.old) out.old out.new result }
{
    let begun = put_label(out, at, label, number);
    then_two(out, begun, place, steps)
}
