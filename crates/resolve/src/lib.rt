// A port of parts of src/verify.rs of metamath-rs 0.3.9 (prepare_step), changed (see NOTICE).
// Which step a label names: a place, a hypothesis or an assertion, or why there is none. Nothing is changed here; the engine makes the step ready.
#![tactic(auto)]

pub mod labels;
pub mod locals;

ghost use Rattle.std.specs.Prelude.{◌≡◌, ◌≤◌};
ghost use Rattle.frames.specs.Logic as words;
ghost use Rattle.frames.specs.Table.{within};
ghost use Rattle.resolve.specs.Resolve.{PreparesStatement, PreparesLabel, TellsAmbiguous, PreparesLocal, PreparesToken};
ghost use Rattle.tokens.specs.Signs.{sign_at};
ghost use Rattle.label_index.specs.Labelled.{Labelled};

use frames::fields;
use frames::numbers::{PlaceNo, StatementNo};
use frames::record::is_hypothesis;
use labels::{find_label, find_named};
use locals::find_local;
use machine::Refusal;
use tokens::{find, parts};

// What a step is: what stands at a place, a $f or $e, a $a or $p.
#[derive(Clone, Copy, Debug, PartialEq, Eq)]
pub enum PreparedStep {
    Place(PlaceNo),
    Hypothesis(StatementNo),
    Frame(StatementNo),
}

// Whether a statement of this kind and scope end is a $f that is out of scope at statement p.
#[tactic(auto, unfolding(frames::specs::Logic::both, frames::specs::Logic::either, frames::specs::Logic::no, frames::specs::Logic::equal, frames::specs::Logic::below, frames::specs::Table::within))]
fn out_of_scope(kind: usize, end: usize, p: usize) -> bool
    ensures { result ≡ words.both (words.equal kind 2) (words.no (within end p)) }
{
    kind == 2 && !(end == 4294967295 || p < end)
}

// Statement s as a step in a proof of p: 29, then 30.
pub fn prepare_statement(
    file: &[u8],
    statements: &[u32],
    p: StatementNo,
    s: StatementNo,
) -> Result<PreparedStep, Refusal>
    ensures { PreparesStatement file.now statements.now p.0 s.0 result }
{
    let own = p.0;
    if own <= s.0 {
        return Err(Refusal::StepUsedBeforeDefinition);
    }
    let at = fields::statement_offset(statements, s);
    let kind = fields::kind(file, at);
    if out_of_scope(kind, fields::scope_end(file, at), own) {
        return Err(Refusal::StepUsedAfterScope);
    }
    if is_hypothesis(kind) {
        return Ok(PreparedStep::Hypothesis(s));
    }
    Ok(PreparedStep::Frame(s))
}

// A roster label as a step in a proof of p: 25, 29, 30.
pub fn prepare_label(
    file: &[u8],
    statements: &[u32],
    labels: &[u32],
    p: StatementNo,
    label: &[u8],
) -> Result<PreparedStep, Refusal>
    requires { Labelled file.now statements.now labels.now }
    ensures { PreparesLabel file.now statements.now p.0 label.now result }
{
    let s = find_label(file, statements, labels, p, label).ok_or(Refusal::StepMissing)?;
    prepare_statement(file, statements, p, s)
}

// Whether the local label of a token, whose first `:` and `=` are known, is that of a $f, $a or $p.
fn is_ambiguous(
    file: &[u8],
    statements: &[u32],
    labels: &[u32],
    token: &[u8],
    colon: usize,
    equals: usize,
) -> bool
    requires labelled { Labelled file.now statements.now labels.now }
    requires colon_value { (colon ≡ sign_at 58 token.now) × (equals ≡ sign_at 61 token.now) }
    ensures { TellsAmbiguous file.now statements.now token.now result }
{
    if parts::has_local(token, colon) {
        let local = parts::local_label(token, colon, equals);
        return find_named(file, statements, labels, local).is_some();
    }
    false
}

// The label of a normal token that is no statement's: 28 where a local label is given, else it is sought among the local labels, 25.
fn prepare_local(
    given: bool,
    label: &[u8],
    text: &[u8],
    locals: &[u32],
    count: usize,
) -> Result<PreparedStep, Refusal>
    requires { count ≤ 4096 }
    ensures { PreparesLocal given label.now text.now locals.now count result }
{
    if given {
        return Err(Refusal::ChainBackref);
    }
    let k = find_local(text, locals, count, label).ok_or(Refusal::StepMissing)?;
    Ok(PreparedStep::Place(k))
}

// A normal token as a step in a proof of p: 26, 28, 25, 29, 30.
pub fn prepare_step(
    file: &[u8],
    statements: &[u32],
    labels: &[u32],
    p: StatementNo,
    token: &[u8],
    text: &[u8],
    locals: &[u32],
    count: usize,
) -> Result<PreparedStep, Refusal>
    requires labelled { Labelled file.now statements.now labels.now }
    requires count_bound { count ≤ 4096 }
    ensures { PreparesToken file.now statements.now p.0 token.now text.now locals.now count result }
{
    let colon = find(token, 58);
    let equals = find(token, 61);
    if is_ambiguous(file, statements, labels, token, colon, equals) {
        return Err(Refusal::LocalLabelAmbiguous);
    }
    let label = parts::label(token, colon, equals);
    match find_label(file, statements, labels, p, label) {
        Some(s) => prepare_statement(file, statements, p, s),
        None => prepare_local(parts::has_local(token, colon), label, text, locals, count),
    }
}
