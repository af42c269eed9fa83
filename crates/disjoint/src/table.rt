// A port of parts of src/verify.rs of metamath-rs 0.3.9 (dv_map), changed (see NOTICE).
// The disjoint table: a row for each variable number, four words that are the set of the numbers of the variables disjoint from it.
ghost use Rattle.std.specs.Prelude.{◌≡◌, ◌+◌, ◌*◌, ◌<◌};
ghost use Rattle.frames.specs.Database.{statement_at};
ghost use Rattle.bitset.specs.Sets.{insert};
ghost use Rattle.packed.specs.Images.{set_of};
ghost use Rattle.disjoint.specs.Disjoint.{Enters, Fills};

use bitset::Bitset;
use frames::fields;
use frames::refer::{Pair, entry};

// A word of a row past the table: no number is in it, so that a variable without a row is disjoint from none.
const NO_ROW: u64 = 0;

// Row n of a table of sets. The place of a row past every table is the largest number, and so past the end too.
pub fn row(table: &[u64], n: usize) -> Bitset
    ensures { result.words ≡ set_of table.now n }
{
    let at = n.saturating_mul(Bitset::WORDS);
    if table.len() <= at {
        return Bitset {
            words: [NO_ROW; Bitset::WORDS],
        };
    }
    Bitset::from_table(table, at)
}

// Enters b into row a.
fn enter(table: &mut [u64], a: usize, b: usize)
    requires { (a < 256) × (b < 256) }
    ensures { table.new ≡ insert table.old (256 * a + b) }
{
    bitset::insert(table, Bitset::BITS * a + b);
}

// Enters a pair both ways. A member with no number, or with one past the last row, enters nothing.
fn enter_pair(numbers: &[u32], table: &mut [u64], pair: Pair)
    ensures { Enters numbers.now pair.left.0 pair.right.0 table.old table.new }
{
    let a = entry(numbers, pair.left.0) as usize;
    let b = entry(numbers, pair.right.0) as usize;
    if 0 < a && a <= 256 && 0 < b && b <= 256 {
        enter(table, a - 1, b - 1);
        enter(table, b - 1, a - 1);
    }
}

// Fills a cleared table with the pairs of the statement at `at`.
pub fn fill(file: &[u8], at: u32, numbers: &[u32], table: &mut [u64])
    ensures { Fills numbers.now (statement_at file.now at).pairs table.old table.new }
{
    let n = fields::pairs(file, at);
    for i in 0..n {
        enter_pair(numbers, table, fields::pair_of(file, at, i));
    }
}
