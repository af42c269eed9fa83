// A port of parts of src/verify.rs of metamath-rs 0.3.9 (the loops over two sets of variables in execute_step), changed (see NOTICE).
// Whether every variable of one set is disjoint from every variable of another, by their numbers.
ghost use Rattle.std.specs.Prelude.{◌≡◌};
ghost use Rattle.frames.specs.Logic.{all};
ghost use Rattle.bitset.specs.Sets.{member, members};
ghost use Rattle.disjoint.specs.Disjoint.{apart};

use crate::table::row;
use bitset::Bitset;

// Every member of y is a member of x.
fn includes(x: Bitset, y: Bitset) -> bool
    ensures { result ≡ all (member x.words) (members y.words) }
{
    x.union(y) == x
}

// The row of each member of x has every member of y.
pub fn all_disjoint(table: &[u64], x: Bitset, y: Bitset) -> bool
    ensures { result ≡ apart table.now (members x.words) (members y.words) }
{
    y.is_empty() || x.iter().all(|a| includes(row(table, a), y))
}
