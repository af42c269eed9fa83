// A port of src/bit_set.rs of metamath-rs 0.3.9, changed (see NOTICE).
// Sets of small numbers, by value: a bit for each number below `Bitset::BITS`, in `Bitset::WORDS` words of 64.
// The contracts say what a set's words are by definitions over a list of words of any length (specs/Sets.antt), and the
// laws say what its members are (proofs/Laws.antt, proofs/Listed.antt). No method has a `requires`.
#![tactic(auto)]

ghost use Rattle.std.specs.Prelude.{◌≡◌, ◌%◌, ◌^◌};
ghost use Rattle.std.specs.Iterator.{YieldsFirst, item_count};
ghost use Rattle.bitset.specs.Sets.{member, members, insert, words_at, Words, Empty, Added, United, TellsEmpty};
ghost use Rattle.bitset.specs.Iter.{left};

use std::array;

// A set: bit n % 64 of word n / 64 says whether n is a member.
#[derive(Clone, Copy, PartialEq, Eq)]
pub struct Bitset {
    pub words: [u64; Bitset::WORDS],
}

// What `replace_bit` gives: whether the number was a member, and the set with it.
// A struct: the clauses of `replace_bit` name both, and adding a variable gives back the set (docs/DECISIONS.md, "The shape of each place").
#[derive(Clone, Copy)]
pub struct Replaced {
    pub old: bool,
    pub set: Bitset,
}

// An iteration over a set, upwards: the members from `at` on are still to come.
#[derive(Clone, Copy)]
pub struct BitsetIter {
    pub set: Bitset,
    pub at: usize,
}

// The word with one bit, that of k.
fn mask(k: usize) -> u64
    ensures { result ≡ 2 ^ (k % 64) }
{
    1u64 << (k % 64)
}

// Adds n to the set that these words are. A number past them is refused: they stay as they were.
pub fn insert(words: &mut [u64], n: usize)
    ensures { words.new ≡ insert words.old n }
{
    let word = n / 64;
    if word < words.len() {
        words[word] |= mask(n);
    }
}

impl Bitset {
    pub const WORDS: usize = 4;

    pub const BITS: usize = 64 * Bitset::WORDS;

    // The set with no member.
    pub fn new() -> Self
        ensures { Empty result.words Bitset.WORDS }
    {
        Bitset {
            words: [0u64; Bitset::WORDS],
        }
    }

    // The set whose words stand in a table from word `at` on. Past the table's end stand zeros.
    pub fn from_table(table: &[u64], at: usize) -> Self
        ensures { result.words ≡ words_at table.now at Bitset.WORDS }
    {
        let words = table.get(at..).unwrap_or(&[]);
        Bitset {
            words: array::from_fn(|k| words.get(k).copied().unwrap_or(0)),
        }
    }

    // The set with `bit` added. A number of BITS or more is refused: the set comes back as it was.
    pub fn set_bit(mut self, bit: usize) -> Self
        ensures adds { Added self.words bit result.words }
        ensures words { Words Bitset.BITS self.words }
    {
        insert(&mut self.words, bit);
        self
    }

    // Whether `bit` is a member. No number of BITS or more is.
    pub fn has_bit(self, bit: usize) -> bool
        ensures tells { result ≡ member self.words bit }
        ensures words { Words Bitset.BITS self.words }
    {
        if Bitset::BITS <= bit {
            return false;
        }
        let w = bit / 64;
        (self.words[w] >> (bit % 64)) % 2 == 1
    }

    // `has_bit` and `set_bit` at once: the old membership of `bit`, and the set with it.
    pub fn replace_bit(self, bit: usize) -> Replaced
        ensures tells { result.old ≡ member self.words bit }
        ensures adds { Added self.words bit result.set.words }
        ensures words { Words Bitset.BITS self.words }
    {
        let set = self.set_bit(bit);
        let old = self.has_bit(bit);
        Replaced { old, set }
    }

    // Whether the set has no member.
    pub fn is_empty(self) -> bool
        ensures tells { TellsEmpty self.words result }
        ensures words { Words Bitset.BITS self.words }
    {
        self.words.iter().all(|word| *word == 0)
    }

    // The set of what is a member of one or of the other.
    pub fn union(self, other: Bitset) -> Self
        ensures joins { United self.words other.words result.words }
        ensures words { Words Bitset.BITS self.words }
        ensures others { Words Bitset.BITS other.words }
    {
        Bitset {
            words: array::from_fn(|k| self.words[k] | other.words[k]),
        }
    }

    // The iteration over all members, upwards.
    pub fn iter(self) -> BitsetIter
        ensures starts { left result ≡ members self.words }
        ensures words { Words Bitset.BITS self.words }
    {
        BitsetIter { set: self, at: 0 }
    }
}

impl Iterator for BitsetIter {
    type Item = usize;

    ghost next_gives = { YieldsFirst left };

    ghost remaining = { item_count left };

    // The first member that is left, if there is one. By `next_gives` it is `first_of` what was left, and `rest_of` that is left (`next-told`, proofs/Steps.antt).
    fn next(&mut self) -> Option<usize> {
        // Not an index that is counted: where nothing lies ahead in a word, the whole word is passed over.
        while self.at < Bitset::BITS {
            let word = self.at / 64;
            let ahead = self.set.words[word] >> (self.at % 64);
            if ahead != 0 {
                let member = self.at + ahead.trailing_zeros() as usize;
                self.at = member + 1;
                return Some(member);
            }
            self.at = 64 * (word + 1);
        }
        None
    }
}
