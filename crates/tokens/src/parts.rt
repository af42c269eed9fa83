// A port of parts of src/verify.rs of metamath-rs 0.3.9 (the split of a token in prepare_step), changed (see NOTICE).
// The three parts of a normal token, each a part of the lent token: its local label, its mark and its label. The caller has the positions of the
// first `:` and of the first `=` from `find`.
ghost use Rattle.std.specs.Prelude.{◌≡◌, ◌<◌, ◌≤◌, length};
ghost use Rattle.machine.specs.Memory.{is_some};
ghost use Rattle.machine.specs.Reading.{split};
ghost use Rattle.tokens.specs.Signs.{sign_at, part_or, part_before};

// What stands before the sign at `sign`, after the other sign where that stands first; nothing where there is no such sign.
#[tactic(auto, unfolding(crate::specs::Signs::part_before, frames::specs::Logic::pick, frames::specs::Logic::equal, frames::specs::Logic::below))]
fn part_before(token: &[u8], sign: usize, other: usize) -> &[u8]
    requires { sign ≤ length token.now }
    ensures { result.now ≡ part_before token.now sign other }
{
    if sign == token.len() {
        &token[..0]
    } else if other < sign {
        &token[other + 1..sign]
    } else {
        &token[..sign]
    }
}

// Whether the token gives a local label: it has a `:`.
pub fn has_local(token: &[u8], colon: usize) -> bool
    requires { colon ≡ sign_at 58 token.now }
    ensures { result ≡ is_some (split token.now).local }
{
    colon < token.len()
}

// The local label: what stands before `:`, after `=` where that stands first.
pub fn local_label(token: &[u8], colon: usize, equals: usize) -> &[u8]
    requires { (colon ≡ sign_at 58 token.now) × (equals ≡ sign_at 61 token.now) }
    ensures { result.now ≡ part_or (split token.now).local }
{
    part_before(token, colon, equals)
}

// Whether the token gives a mark: it has a `=`. (One comparison as in `has_local`, but each contract speaks of another part of `split`.)
pub fn has_mark(token: &[u8], equals: usize) -> bool
    requires { equals ≡ sign_at 61 token.now }
    ensures { result ≡ is_some (split token.now).mark }
{
    equals < token.len()
}

// The mark: what stands before `=`, after `:` where that stands first.
pub fn mark(token: &[u8], colon: usize, equals: usize) -> &[u8]
    requires { (colon ≡ sign_at 58 token.now) × (equals ≡ sign_at 61 token.now) }
    ensures { result.now ≡ part_or (split token.now).mark }
{
    part_before(token, equals, colon)
}

// The sign that the label follows: `=`, or `:` where there is no `=`.
fn label_sign(size: usize, colon: usize, equals: usize) -> usize
    ensures { (equals < size → result ≡ equals) × (size ≤ equals → result ≡ colon) }
{
    if equals < size { equals } else { colon }
}

// The label: what follows its sign, or the whole token where there is no sign.
pub fn label(token: &[u8], colon: usize, equals: usize) -> &[u8]
    requires { (colon ≡ sign_at 58 token.now) × (equals ≡ sign_at 61 token.now) }
    ensures { result.now ≡ (split token.now).label }
{
    let sign = label_sign(token.len(), colon, equals);
    if sign < token.len() {
        &token[sign + 1..]
    } else {
        token
    }
}
