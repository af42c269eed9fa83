// Names and labels: which bytes they have, when two are the same, and which record bears one.
#![tactic(auto, unfolding(crate::specs::Table::name_byte, crate::specs::Table::label_byte, crate::specs::Logic::both, crate::specs::Logic::no, crate::specs::Logic::at_most, crate::specs::Logic::equal, crate::specs::Logic::one_of, crate::specs::Logic::either))]

ghost use Rattle.std.specs.Prelude.{◌≡◌};
ghost use Rattle.frames.specs.Logic.{all, same};
ghost use Rattle.frames.specs.Table.{name_byte, label_byte, used};
ghost use Rattle.frames.specs.Search.{Finds};

use crate::record::rest_at;

// Name bytes are 21 to 7E hex, without `$`.
pub fn name_byte(b: u8) -> bool
    ensures { result ≡ name_byte b }
{
    b.is_ascii_graphic() && b != b'$'
}

// Label bytes are letters, digits, `-`, `_`, `.`.
pub fn label_byte(b: u8) -> bool
    ensures { result ≡ label_byte b }
{
    b.is_ascii_alphanumeric() || matches!(b, b'-' | b'_' | b'.')
}

// Whether each byte of a name is a name byte.
pub fn all_name_bytes(name: &[u8]) -> bool
    ensures { result ≡ all name_byte name.now }
{
    name.iter().all(|b| name_byte(*b))
}

// Whether each byte of a label is a label byte. (Its own function and not one with a test handed to it, as that would have to say
// in its contract which words the test answers for, and each is one line.)
pub fn all_label_bytes(label: &[u8]) -> bool
    ensures { result ≡ all label_byte label.now }
{
    label.iter().all(|b| label_byte(*b))
}

// Whether two names or labels are the same.
pub fn same_bytes(a: &[u8], b: &[u8]) -> bool
    ensures { result ≡ same a.now b.now }
{
    a == b
}

// Looks among the records at these offsets for one with this name or label: its number.
pub fn find(file: &[u8], offsets: &[u32], text: &[u8]) -> Option<usize>
    ensures { Finds file.now offsets.now text.now result }
{
    for (i, at) in offsets.iter().enumerate() {
        if same_bytes(rest_at(file, *at), text) {
            return Some(i);
        }
    }
    None
}

// Whether one of the records at these offsets has this name or label.
pub fn is_used(file: &[u8], offsets: &[u32], text: &[u8]) -> bool
    ensures { result ≡ used file.now offsets.now text.now }
{
    find(file, offsets, text).is_some()
}
