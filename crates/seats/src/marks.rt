// A port of parts of src/verify.rs of metamath-rs 0.3.9 (execute_step's marks), changed (see NOTICE).
// The marks of the entries, read where they lie in the text, and the searches among them; 33 and 34.
ghost use Rattle.std.specs.Prelude.{◌≡◌, ◌≤◌, ◌<◌, get_or};
ghost use Rattle.frames.specs.Database.{statement_at};
ghost use Rattle.machine.specs.Apply.{names, is_marked};
ghost use Rattle.packed.specs.Pool.{range};
ghost use Rattle.seats.specs.Marks.{row_mark, labels_at, FirstMarked, FirstUnmarked, NoneMarked, Checks};
ghost use Rattle.seats.specs.Seats.{ChecksMarks};

use frames::fields;
use frames::read::part;
use frames::refer::entry_or;
use frames::text::same_bytes;
use machine::Refusal;

// The bytes of the text from `from` up to `end`.
#[tactic(auto, unfolding(packed::specs::Pool::range))]
fn span(text: &[u8], from: usize, end: usize) -> &[u8]
    ensures { result.now ≡ range from end text.now }
{
    part(text, from, end.saturating_sub(from))
}

// Whether row k has this mark.
fn is_marked(text: &[u8], stack: &[u64], k: usize, label: &[u8]) -> bool
    requires { k < 70000 }
    ensures { result ≡ is_marked label.now (row_mark text.now stack.now k) }
{
    let tag = entry_or(stack, 10 * k + 3, 0) as usize;
    let end = entry_or(stack, 10 * k + 4, 0) as usize;
    if tag == 0 {
        return false;
    }
    same_bytes(span(text, tag - 1, end), label)
}

// The first row from `from` on that has this mark, where one before `to` has.
pub fn find_marked(
    text: &[u8],
    stack: &[u64],
    from: usize,
    to: usize,
    label: &[u8],
) -> Option<usize>
    requires { (from ≤ to) × (to < 70000) }
    ensures { FirstMarked text.now stack.now label.now from to result }
{
    (from..to).find(
        |&k|
            requires { k < 70000 }
        { is_marked(text, stack, k, label) },
    )
}

// The first row from `from` on without a mark, where one before `to` has none.
pub fn next_unmarked(stack: &[u64], from: usize, to: usize) -> Option<usize>
    requires { (from ≤ to) × (to < 70000) }
    ensures { FirstUnmarked stack.now from to result }
{
    (from..to).find(
        |&k|
            requires { k < 70000 }
        { entry_or(stack, 10 * k + 3, 0) == 0 },
    )
}

// Whether no row from `from` up to `to` has a mark.
pub fn none_marked(stack: &[u64], from: usize, to: usize) -> bool
    requires { (from ≤ to) × (to < 70000) }
    ensures { NoneMarked stack.now from to result }
{
    (from..to).all(
        |k|
            requires { k < 70000 }
        { entry_or(stack, 10 * k + 3, 0) == 0 },
    )
}

// Where the record of the i-th hypothesis of the statement at `at` lies.
pub fn hypothesis_offset(file: &[u8], statements: &[u32], at: u32, i: usize) -> u32
    ensures { result ≡ get_or statements.now (get_or (statement_at file.now at).hyps i 0) 0 }
{
    let h = fields::hypothesis(file, at, i);
    fields::statement_offset(statements, h)
}

// Whether a mark names one of the hypotheses of the statement at `at`.
fn names_hypothesis(file: &[u8], statements: &[u32], at: u32, mark: &[u8]) -> bool
    ensures { result ≡ names (labels_at file.now statements.now at) mark.now }
{
    (0..fields::hypotheses(file, at)).any(|i| {
        let o = hypothesis_offset(file, statements, at, i);
        same_bytes(mark, fields::label(file, o))
    })
}

// The mark of row k: 33 where it names no hypothesis, 34 where a row from `base` on has it already.
fn check_mark(
    file: &[u8],
    statements: &[u32],
    at: u32,
    text: &[u8],
    stack: &[u64],
    base: usize,
    k: usize,
) -> Result<(), Refusal>
    requires { (base ≤ k) × (k < 70000) }
    ensures { Checks (labels_at file.now statements.now at) text.now stack.now base k result }
{
    let tag = entry_or(stack, 10 * k + 3, 0) as usize;
    if tag == 0 {
        return Ok(());
    }
    let end = entry_or(stack, 10 * k + 4, 0) as usize;
    let mark = span(text, tag - 1, end);
    if names_hypothesis(file, statements, at, mark) {
        return match find_marked(text, stack, base, k, mark) {
            Some(_) => Err(Refusal::DuplicateExplicitLabel),
            None => Ok(()),
        };
    }
    Err(Refusal::BadExplicitLabel)
}

// The marks from row `base` up to row `to`, from the bottom up.
pub fn check_marks(
    file: &[u8],
    statements: &[u32],
    at: u32,
    text: &[u8],
    stack: &[u64],
    base: usize,
    to: usize,
) -> Result<(), Refusal>
    requires { (base ≤ to) × (to < 70000) }
    ensures { ChecksMarks (labels_at file.now statements.now at) text.now stack.now base to result }
{
    for k in base..to {
        check_mark(file, statements, at, text, stack, base, k)?;
    }
    Ok(())
}
