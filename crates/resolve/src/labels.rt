// A port of parts of src/verify.rs of metamath-rs 0.3.9 (the search for a label in prepare_step, prepare_named_hyp), changed (see NOTICE).
// Which statement a label names: one search in the index of labels, and then a test of what was found. No two statements have one label.
ghost use Rattle.std.specs.Prelude.{◌≡◌, get_or};
ghost use Rattle.frames.specs.Database.{statement_at};
ghost use Rattle.machine.specs.Ground.{is_essential, among};
ghost use Rattle.resolve.specs.Resolve.{may_name, FindsNamed, FindsLabel};
ghost use Rattle.label_index.specs.Labelled.{Labelled};

use frames::fields;
use frames::numbers::StatementNo;
use label_index::find_labelled;

// Whether statement s is a $e.
fn is_essential(file: &[u8], statements: &[u32], s: StatementNo) -> bool
    ensures { result ≡ is_essential (statement_at file.now (get_or statements.now s.0 0)) }
{
    fields::kind(file, fields::statement_offset(statements, s)) == 3
}

// Whether the statement at `at` lists hypothesis h.
fn is_listed(file: &[u8], at: u32, h: StatementNo) -> bool
    ensures { result ≡ among (statement_at file.now at).hyps h.0 }
{
    (0..fields::hypotheses(file, at)).any(|i| h.0 == fields::hypothesis(file, at, i).0)
}

// Whether a label may name statement s in a proof of p: it is no $e, or p lists it.
fn may_name(file: &[u8], statements: &[u32], p: StatementNo, s: StatementNo) -> bool
    ensures { result ≡ may_name file.now statements.now p.0 s.0 }
{
    if is_essential(file, statements, s) {
        return is_listed(file, fields::statement_offset(statements, p), s);
    }
    true
}

// The $f, $a or $p of this label.
pub fn find_named(
    file: &[u8],
    statements: &[u32],
    labels: &[u32],
    label: &[u8],
) -> Option<StatementNo>
    requires { Labelled file.now statements.now labels.now }
    ensures { FindsNamed file.now statements.now label.now result }
{
    let s = find_labelled(file, statements, labels, label)?;
    if is_essential(file, statements, s) {
        return None;
    }
    Some(s)
}

// The statement that this label names in a proof of p: a $f, $a or $p, or a $e that p lists.
pub fn find_label(
    file: &[u8],
    statements: &[u32],
    labels: &[u32],
    p: StatementNo,
    label: &[u8],
) -> Option<StatementNo>
    requires { Labelled file.now statements.now labels.now }
    ensures { FindsLabel file.now statements.now p.0 label.now result }
{
    let s = find_labelled(file, statements, labels, label)?;
    if may_name(file, statements, p, s) {
        return Some(s);
    }
    None
}
