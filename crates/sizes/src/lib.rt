// How long the text of a recorded derivation is: one pass over the tree entries stores the size of each application in a table, at the number of its first entry.
// A shared part is never walked twice. Sizes are told apart up to 65,538, so that no sum overflows.
#![tactic(auto)]

ghost use Rattle.std.specs.Prelude.{◌≡◌, ◌+◌, ◌≤◌, ◌<◌, length};
ghost use Rattle.sizes.specs.Measured.{capped, offset_of, label_size_at, size_at, words_at, application_size, measured_from, Measures};

use frames::fields;
use frames::refer::{entry, entry_or};

// An entry as an offset.
#[tactic(auto, unfolding(crate::specs::Measured::offset_of))]
fn offset(word: u64) -> u32
    ensures { result ≡ offset_of word }
{
    u32::try_from(word).unwrap_or(u32::MAX)
}

// The sum of two sizes.
#[tactic(auto, unfolding(crate::specs::Measured::capped))]
pub fn add_capped(a: usize, b: usize) -> usize
    ensures { result ≡ capped (a + b) }
{
    a.saturating_add(b).min(65538)
}

// The size of the label of the statement at this offset, with one space.
fn label_size(file: &[u8], at: u64) -> usize
    ensures { result ≡ label_size_at file.now at }
{
    let label = fields::label(file, offset(at));
    add_capped(label.len(), 1)
}

// The size of the derivation that a word stands for, where the table has the sizes of the applications.
pub fn size_of(file: &[u8], sizes: &[u32], word: u64) -> usize
    ensures { result ≡ size_at file.now sizes.now word }
{
    if word % 2 == 0 {
        return label_size(file, word / 2);
    }
    let from = word / 2;
    entry(sizes, from as usize) as usize
}

// How many words follow the first entry of the application at `from`.
fn words_at(file: &[u8], tree: &[u64], from: usize) -> usize
    ensures { (result ≡ words_at file.now tree.now from) × (result < 65536) }
{
    let at = offset(entry_or(tree, from, 0));
    fields::hypotheses(file, at)
}

// The size of the application at `from`.
fn measure_one(file: &[u8], tree: &[u64], from: usize, sizes: &[u32]) -> usize
    requires { from < length sizes.now }
    ensures { result ≡ application_size file.now tree.now sizes.now from }
{
    let n = words_at(file, tree, from);
    let mut sum = label_size(file, entry_or(tree, from, 0));
    for i in 0..n {
        let word = entry_or(tree, from + 1 + i, 0);
        sum = add_capped(sum, size_of(file, sizes, word));
    }
    sum
}

// Measures the applications of the first n entries, one after another.
fn measure_to(file: &[u8], tree: &[u64], n: usize, sizes: &mut [u32])
    requires { n ≤ length sizes.old }
    ensures { sizes.new ≡ measured_from file.now tree.now n n 0 sizes.old }
{
    // A cursor: each turn moves it on by as many entries as the application has.
    let mut at = 0;
    while at < n {
        let size = measure_one(file, tree, at, sizes);
        sizes[at] = size as u32;
        at += 1 + words_at(file, tree, at);
    }
}

// Measures the applications of the first n entries, as far as the table reaches.
pub fn measure(file: &[u8], tree: &[u64], n: usize, sizes: &mut [u32])
    ensures { Measures file.now tree.now n sizes.old sizes.new }
{
    let end = n.min(sizes.len());
    measure_to(file, tree, end, sizes);
}
