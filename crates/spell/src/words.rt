// The words of a recorded derivation: the statement that a word names, and the words that an application is made of, put on top of those that are pending.
ghost use Rattle.std.specs.Prelude.{◌≡◌, ◌+◌, ◌^◌, ◌≤◌, ◌<◌, length};
ghost use Rattle.packed.specs.Pool.{written};
ghost use Rattle.spell.specs.Words.{as_offset, offset_of, entries_from, words_below, PushesWords};

use frames::fields::hypotheses;
use frames::refer::entry_or;

// A number as an offset; 0 for one that is too large.
#[tactic(auto, unfolding(crate::specs::Words::as_offset, frames::specs::Logic::pick, frames::specs::Logic::below))]
fn as_offset(n: u64) -> u32
    ensures { result ≡ as_offset n }
{
    u32::try_from(n).unwrap_or(0)
}

// The offset of the statement that a word names: the hypothesis, or the assertion that is applied.
pub fn offset_of(tree: &[u64], word: u64) -> u32
    ensures { result ≡ offset_of tree.now word }
{
    if word % 2 == 0 {
        return as_offset(word / 2);
    }
    as_offset(entry_or(tree, (word / 2) as usize, 0))
}

// Puts n words of the tree entries, from `from` on, into a table at `at`.
fn put_words(tree: &[u64], from: usize, n: usize, table: &mut [u64], at: usize)
    requires { (from + n < 2 ^ 64) × (at + n ≤ length table.old) }
    ensures { table.new ≡ written (entries_from tree.now from n) at table.old }
{
    // An index: the place in two tables at once, a chain would be no plainer.
    for i in 0..n {
        table[at + i] = entry_or(tree, from + i, 0);
    }
}

// Puts the words that an application is made of on the `depth` ones that are pending, the last one on top, where there is room; a hypothesis has none. Gives how
// many are pending then.
pub fn push_words(file: &[u8], tree: &[u64], word: u64, pending: &mut [u64], depth: usize) -> usize
    requires { depth ≤ length pending.old }
    ensures { PushesWords (words_below file.now tree.now word) depth pending.old pending.new result }
{
    if word % 2 == 0 {
        return depth;
    }
    let n = hypotheses(file, offset_of(tree, word));
    if pending.len() - depth < n {
        return depth;
    }
    put_words(tree, (word / 2 + 1) as usize, n, pending, depth);
    depth + n
}
