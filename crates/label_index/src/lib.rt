// The index of labels: which statement bears a label, found by a hash and a short chain in the place of a search through all statements.
// It is filled once after the file check. Words 0 to 8191 are the heads of the chains, one for each hash; word 8192 + j is what
// follows statement j in its chain. A word is a statement number and 1, or 0 at the end of a chain.
#![tactic(auto)]

ghost use Rattle.std.specs.Prelude.{◌≡◌, ◌<◌, ◌≤◌, length};
ghost use Rattle.frames.specs.Search.{FindsStatement};
ghost use Rattle.label_index.specs.Labelled.{hash_of, Labelled, LabelledTo, Put};

use clearing::clear;
use frames::numbers::StatementNo;
use frames::record::rest_at;
use frames::refer::entry;
use frames::text::same_bytes;

// The hash of a label.
pub fn hash(label: &[u8]) -> usize
    ensures { (result ≡ hash_of label.now) × (result < 8192) }
{
    let mut h: usize = 0;
    for b in label {
        h = (h * 613 + *b as usize) % 8192;
    }
    h
}

// Puts statement i at the head of the chain of hash b.
fn put(labels: &mut [u32], b: usize, i: usize)
    requires { (length labels.old ≡ 12288) × (b < 8192) × (i < 4096) }
    ensures { Put labels.old b i labels.new }
{
    labels[8192 + i] = labels[b];
    labels[b] = i as u32 + 1;
}

// Puts statement after statement at the head of its chain.
fn put_all(file: &[u8], statements: &[u32], labels: &mut [u32])
    requires labelled_to { LabelledTo file.now statements.now labels.old 0 }
    requires statements_len_bound { length statements.now ≤ 4096 }
    ensures { Labelled file.now statements.now labels.new }
{
    for (i, at) in statements.iter().enumerate() {
        let b = hash(rest_at(file, *at));
        put(labels, b, i);
    }
}

// Fills the index.
pub fn fill(file: &[u8], statements: &[u32], labels: &mut [u32])
    requires labels_len { length labels.old ≡ 12288 }
    requires statements_len_bound { length statements.now ≤ 4096 }
    ensures { Labelled file.now statements.now labels.new }
{
    clear(labels, 0);
    put_all(file, statements, labels);
}

// The statement of this label.
pub fn find_labelled(
    file: &[u8],
    statements: &[u32],
    labels: &[u32],
    label: &[u8],
) -> Option<StatementNo>
    requires { Labelled file.now statements.now labels.now }
    ensures { FindsStatement file.now statements.now label.now result }
{
    let mut word = entry(labels, hash(label)) as usize;
    // A chain of numbers, each of which names the next: no range or slice is walked.
    while word != 0 {
        let j = word - 1;
        if same_bytes(rest_at(file, entry(statements, j)), label) {
            return Some(StatementNo(j));
        }
        word = entry(labels, 8192 + j) as usize;
    }
    None
}
