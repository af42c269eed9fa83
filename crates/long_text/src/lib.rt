// The text of a recorded derivation, where it fits: its length is known before a byte of it is written, so that an output which is too short stays as it was.
#![tactic(auto)]

ghost use Rattle.std.specs.Prelude.{◌≡◌, length};
ghost use Rattle.postorder.specs.LongForm.{most_bytes};
ghost use Rattle.long_text.specs.Long.{Tells, WritesLong};

use sizes::{measure, size_of};
use spell::text::write_text;

// The greatest length of a text, where so many bytes of output are lent.
#[tactic(auto, unfolding(postorder::specs::LongForm::most_bytes))]
fn most_bytes(output: usize) -> usize
    ensures { result ≡ most_bytes output }
{
    output.min(65536)
}

// The length of the text of the derivation that a word stands for, told apart up to 65,537: that of its labels, each with a space, but for the space after the last.
fn text_length(file: &[u8], tree: &[u64], nodes: usize, word: u64, sizes: &mut [u32]) -> usize
    ensures { Tells file.now tree.now nodes word (length sizes.old) result }
{
    measure(file, tree, nodes, sizes);
    size_of(file, sizes, word).saturating_sub(1)
}

// Writes the text of the derivation that a word stands for into the front of the output, where it has at most 65,536 bytes and the output as many: its length,
// or none where it is too long.
pub fn write_long(
    file: &[u8],
    tree: &[u64],
    nodes: usize,
    word: u64,
    sizes: &mut [u32],
    pending: &mut [u64],
    output: &mut [u8],
) -> Option<usize>
    ensures { WritesLong file.now tree.now nodes word sizes.old pending.old output.old output.new result }
{
    let most = most_bytes(output.len());
    let length = text_length(file, tree, nodes, word, sizes);
    if most < length {
        return None;
    }
    write_text(file, tree, word, length, pending, output);
    Some(length)
}
