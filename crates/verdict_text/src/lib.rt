// The line that tells a verdict on a frame file: `good SYMBOLS STATEMENTS` or `refused NUMBER PLACE`, and LF.
// `put` puts it into a lent array, and is proved to put what the definition says; `print` writes it.
#![tactic(auto)]

ghost use Rattle.std.specs.Prelude.{◌≡◌, ◌+◌, ◌≤◌, length, take};
ghost use Rattle.io.specs.Counts.{IsPrefixLen};
ghost use Rattle.verdict_text.specs.Text.{Appended, decimal, line, good_line, refused_line, line_of};

use frames::Verdict;

// Puts part into out from the place at on, and answers the place after it.
fn append(out: &mut [u8], at: usize, part: &[u8]) -> usize
    requires { at + length part.now ≤ length out.old }
    ensures { Appended out.old at part.now out.new result }
{
    let end = at + part.len();
    out[at..end].copy_from_slice(part);
    end
}

// Puts a number's digits into out from the place at on, and answers the place after them.
fn append_number(out: &mut [u8], at: usize, n: usize) -> usize
    requires { at + 20 ≤ length out.old }
    ensures appended { Appended out.old at (decimal n) out.new result }
    ensures upper_bound { result ≤ at + 20 }
{
    let mut digits = [0u8; 20];
    let k = io::decimal(n as u64, &mut digits);
    append(out, at, &digits[..k])
}

// Puts a word, two numbers and the line's end at the start of out.
fn put_line(out: &mut [u8], word: &[u8], a: usize, b: usize) -> usize
    requires { (64 ≤ length out.old) × (length word.now ≤ 8) }
    ensures prefix_len { IsPrefixLen result out.new }
    ensures out_after { take result out.new ≡ line word.now a b }
{
    let first = append(out, 0, word);
    let after_first = append_number(out, first, a);
    let second = append(out, after_first, b" ");
    let after_second = append_number(out, second, b);
    append(out, after_second, b"\n")
}

// The line of a good file.
fn good(symbols: usize, statements: usize, out: &mut [u8; 64]) -> usize
    ensures prefix_len { IsPrefixLen result out.new }
    ensures out_after { take result out.new ≡ good_line symbols statements }
{
    put_line(out, b"good ", symbols, statements)
}

// The line of a file that is turned away.
fn refused(number: usize, place: usize, out: &mut [u8; 64]) -> usize
    ensures prefix_len { IsPrefixLen result out.new }
    ensures out_after { take result out.new ≡ refused_line number place }
{
    put_line(out, b"refused ", number, place)
}

// Puts the line of a verdict at the start of out, and answers how many bytes it has.
pub fn put(verdict: Verdict, out: &mut [u8; 64]) -> usize
    ensures prefix_len { IsPrefixLen result out.new }
    ensures out_after { take result out.new ≡ line_of verdict }
{
    match verdict {
        Ok(sizes) => good(sizes.symbols, sizes.statements, out),
        Err(away) => refused(frames::number(away.why), away.place, out),
    }
}

// Writes the line of a verdict.
pub fn print(fd: i32, verdict: Verdict) {
    let mut text = [0u8; 64];
    let n = put(verdict, &mut text);
    io::write_all(fd, &text[..n]);
}
