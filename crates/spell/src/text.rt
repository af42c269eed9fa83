// Writing the labels of a derivation in post-order, from the end to the front: the label of the word on top goes right before what is written, with one space between;
// the words below it take its place, so that the last one is next.
ghost use Rattle.std.specs.Prelude.{◌≡◌, ◌∷◌, ◌+◌, ◌≤◌, length, set};
ghost use Rattle.frames.specs.Database.{statement_at};
ghost use Rattle.spell.specs.Words.{offset_of};
ghost use Rattle.spell.specs.Text.{Puts, WritesPending, WritesText};

use crate::words::{offset_of, push_words};
use frames::fields;
use frames::refer::entry_or;
use packed::pool::put_text;

// The label of the statement that a word names.
fn label_of<'a>(file: &'a [u8], tree: &[u64], word: u64) -> &'a [u8]
    ensures { result.now ≡ (statement_at file.now (offset_of tree.now word)).label }
{
    fields::label(file, offset_of(tree, word))
}

// Puts a space right before `at`, unless the output begins there.
fn put_space(out: &mut [u8], at: usize)
    requires { at ≤ length out.old }
    ensures { 32 ∷ out.new ≡ set (32 ∷ out.old) at 32 }
{
    if 0 < at {
        out[at - 1] = b' ';
    }
}

// Puts a label and the space before it so that they end right before byte `end` of a space and the output; nothing where that is too far in front. Gives where they
// begin.
fn put_label(out: &mut [u8], end: usize, label: &[u8]) -> usize
    requires { end ≤ length out.old + 1 }
    ensures { Puts label.now end out.old out.new result }
{
    let n = label.len();
    if end <= n {
        return 0;
    }
    let at = end - n - 1;
    put_space(out, at);
    put_text(out, at, label);
    at
}

// Writes what the `depth` pending words denote, so that it ends at byte `size` of the output.
fn write_pending(
    file: &[u8],
    tree: &[u64],
    pending: &mut [u64],
    depth: usize,
    size: usize,
    out: &mut [u8],
)
    requires { (depth ≤ length pending.old) × (size ≤ length out.old) }
    ensures { WritesPending file.now tree.now pending.old depth size out.old out.new }
{
    // A stack: each turn takes its top and puts the words below that one, so no range or slice is walked.
    let mut left = depth;
    let mut end = size + 1;
    while 0 < end {
        if left == 0 {
            return;
        }
        left -= 1;
        let word = entry_or(pending, left, 0);
        end = put_label(out, end, label_of(file, tree, word));
        left = push_words(file, tree, word, pending, left);
    }
}

// Writes the text of the derivation that a word denotes into the front of the output, which takes `size` bytes of it.
pub fn write_text(
    file: &[u8],
    tree: &[u64],
    word: u64,
    size: usize,
    pending: &mut [u64],
    out: &mut [u8],
)
    ensures { WritesText file.now tree.now word size pending.old out.old out.new }
{
    if out.len() < size {
        return;
    }
    if pending.is_empty() {
        return;
    }
    pending[0] = word;
    write_pending(file, tree, pending, 1, size, out);
}
