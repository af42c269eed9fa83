// Tables of rows, ten words each.
ghost use Rattle.std.specs.Prelude.{◌≡◌, ◌+◌, ◌*◌, ◌≤◌, ◌<◌, length};
ghost use Rattle.memory.specs.Table.{RowAt, with_row};

use bitset::Bitset;
use frames::refer::entry_or;

// A row: on the stack the typecode, the range of the pool, the mark (0 for none, else one more than where it begins in the text) and its end, the word of its
// derivation, and the set of variables; in a place the same with the tag 0, or the number of the assertion with the tag 1.
#[derive(Clone, Copy)]
pub struct Row {
    pub head: usize,
    pub from: usize,
    pub to: usize,
    pub tag: usize,
    pub end: usize,
    pub node: usize,
    pub vars: Bitset,
}

// Row k of a table.
pub fn row_at(table: &[u64], k: usize) -> Row
    requires { k < 65536 }
    ensures { RowAt table.now k result }
{
    let i = 10 * k;
    let head = entry_or(table, i, 0);
    let from = entry_or(table, i + 1, 0);
    let to = entry_or(table, i + 2, 0);
    let tag = entry_or(table, i + 3, 0);
    let end = entry_or(table, i + 4, 0);
    let node = entry_or(table, i + 5, 0);
    Row {
        head: head as usize,
        from: from as usize,
        to: to as usize,
        tag: tag as usize,
        end: end as usize,
        node: node as usize,
        vars: Bitset::from_table(table, i + 6),
    }
}

// Stores a row at k.
pub fn put_row(table: &mut [u64], k: usize, row: Row)
    requires { 10 * k + 10 ≤ length table.old }
    ensures { table.new ≡ with_row row k table.old }
{
    let v = row.vars;
    let words = [
        row.head as u64,
        row.from as u64,
        row.to as u64,
        row.tag as u64,
        row.end as u64,
        row.node as u64,
        v.words[0],
        v.words[1],
        v.words[2],
        v.words[3],
    ];
    let at = 10 * k;
    table[at..at + 10].copy_from_slice(&words);
}
