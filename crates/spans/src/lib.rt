// A port of parts of src/verify.rs of metamath-rs 0.3.9 (the split of a token in prepare_step), changed (see NOTICE).
// Where the mark and the local label of a normal token stand in the proof's text: offsets that can be kept in a table, with nothing copied.
#![tactic(auto)]

ghost use Rattle.std.specs.Prelude.{◌≡◌, ◌∷◌, [], ◌+◌, ◌-◌, ◌≤◌, ◌<◌, length};
ghost use Rattle.frames.specs.Logic.{same};
ghost use Rattle.machine.specs.Reading.{split};
ghost use Rattle.packed.specs.Pool.{range};
ghost use Rattle.spans.specs.Spans.{Before, StandsFor};
ghost use Rattle.tokens.specs.Signs.{sign_at};

use tokens::find;

// Where a part of a token stands in the text: `tag` is 0 where there is none, else one more than where it begins; `end` is where it ends.
// No Option: both numbers go as they are into the words of a row (memory::table::Row), where a tag of 0 is no mark.
#[derive(Clone, Copy)]
pub struct Span {
    pub tag: usize,
    pub end: usize,
}

// The part before a sign at `own`, after the other sign where that stands first, in the token of `size` bytes from `from` on.
fn span_before(from: usize, size: usize, own: usize, other: usize) -> Span
    requires { from + size < 18446744073709551616 }
    ensures { Before from size own other result }
{
    if own < size {
        let end = from + own;
        if other < own {
            return Span {
                tag: from + other + 2,
                end,
            };
        }
        return Span { tag: from + 1, end };
    }
    Span { tag: 0, end: 0 }
}

// Where the part before the first `own` of the token from `from` up to `to` stands, after the first `other` where that stands first.
fn part_span(text: &[u8], from: usize, to: usize, own: u8, other: u8) -> Span
    requires { (from ≤ to) × (to ≤ length text.now) }
    ensures { Before from (to - from) (sign_at own (range from to text.now)) (sign_at other (range from to text.now)) result }
{
    let token = &text[from..to];
    span_before(from, token.len(), find(token, own), find(token, other))
}

// Where the mark of the token from `from` up to `to` stands: before its first `=`.
pub fn mark_span(text: &[u8], from: usize, to: usize) -> Span
    requires { (from ≤ to) × (to ≤ length text.now) }
    ensures { StandsFor text.now (split (range from to text.now)).mark result }
{
    part_span(text, from, to, b'=', b':')
}

// Where the local label of the token from `from` up to `to` stands: before its first `:`.
pub fn local_span(text: &[u8], from: usize, to: usize) -> Span
    requires { (from ≤ to) × (to ≤ length text.now) }
    ensures { StandsFor text.now (split (range from to text.now)).local result }
{
    part_span(text, from, to, b':', b'=')
}

// Whether the token from `from` up to `to` is one byte alone, as `(`, `)` and `?`.
pub fn is_token(text: &[u8], from: usize, to: usize, b: u8) -> bool
    requires { (from ≤ to) × (to ≤ length text.now) }
    ensures { result ≡ same (range from to text.now) (b ∷ []) }
{
    if to - from != 1 {
        return false;
    }
    text[from] == b
}
