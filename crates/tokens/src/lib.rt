// A port of parts of src/verify.rs of metamath-rs 0.3.9 (the letters in verify_proof), changed (see NOTICE).
// How the bytes of a proof's text are read: dividers and bad bytes, the class of a letter, where a sign stands; and (parts.rt) the three parts of
// a normal token, each a part of the lent token.
#![tactic(auto)]

pub mod parts;

ghost use Rattle.std.specs.Prelude.{◌≡◌};
ghost use Rattle.frames.specs.Logic.{any};
ghost use Rattle.machine.specs.Reading as reading;
ghost use Rattle.tokens.specs.Signs.{sign_at};

use frames::text::name_byte;
use machine::Letter;

// Whether a byte divides tokens: space, tab, CR, LF, FF.
#[tactic(auto, unfolding(machine::specs::Reading::divider, frames::specs::Logic::one_of, frames::specs::Logic::either, frames::specs::Logic::equal))]
pub fn divider(b: u8) -> bool
    ensures { result ≡ reading.divider b }
{
    b.is_ascii_whitespace()
}

// Whether a byte is neither a name byte nor a divider.
#[tactic(auto, unfolding(machine::specs::Reading::bad_byte, frames::specs::Logic::either, frames::specs::Logic::no))]
pub fn bad_byte(b: u8) -> bool
    ensures { result ≡ reading.bad_byte b }
{
    !(name_byte(b) || divider(b))
}

// Whether some byte of the text is bad.
pub fn any_bad(text: &[u8]) -> bool
    ensures { result ≡ any reading.bad_byte text.now }
{
    text.iter().any(|b| bad_byte(*b))
}

// The class of a letter.
#[tactic(auto, unfolding(machine::specs::Reading::letter, frames::specs::Logic::pick, frames::specs::Logic::both, frames::specs::Logic::at_most, frames::specs::Logic::equal))]
pub fn letter(b: u8) -> Letter
    ensures { result ≡ reading.letter b }
{
    match b {
        65..=84 => Letter::Last(b as usize - 65),
        85..=89 => Letter::Higher(b as usize - 84),
        90 => Letter::Save,
        63 => Letter::Incomplete,
        _ => Letter::Ignored,
    }
}

// Where the first of a sign stands in a token; the token's length where there is none, and no Option: `sign_at` says so, and the parts of a token are cut there.
pub fn find(token: &[u8], sign: u8) -> usize
    ensures { result ≡ sign_at sign token.now }
{
    token.iter().position(|b| *b == sign).unwrap_or(token.len())
}
