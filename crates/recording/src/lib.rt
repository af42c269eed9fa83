// Recording the derivation of a run: an application's entries go behind those that are used, where they fit.
#![tactic(auto)]

ghost use Rattle.std.specs.Prelude.{◌+◌, ◌≤◌, length};
ghost use Rattle.recording.specs.Notes.{PutsNodes, Notes};

use frames::refer::{entry, entry_or};

// The word of the application that was recorded, and how many tree entries are used then: more than there are where it did not fit.
#[derive(Clone, Copy)]
pub struct Noted {
    pub word: usize,
    pub nodes: usize,
}

// The words of the derivations of n entries of the stack, counted from `base`, in the order of their seats, go into the tree from `from` on.
fn put_nodes(stack: &[u64], base: usize, seats: &[u32], n: usize, tree: &mut [u64], from: usize)
    requires { (base ≤ 1024) × (from + n ≤ length tree.old) }
    ensures { PutsNodes stack.now base seats.now n tree.old from tree.new }
{
    // An index: the place in the seats and in the tree at once, a chain would be no plainer.
    for j in 0..n {
        let i = entry(seats, j) as usize;
        tree[from + j] = entry_or(stack, 10 * (base + i % 64) + 5, 0);
    }
}

// Records an application of the assertion at `at` to the n entries in their seats.
pub fn record_step(
    at: u32,
    stack: &[u64],
    base: usize,
    seats: &[u32],
    n: usize,
    tree: &mut [u64],
    used: usize,
) -> Noted
    requires { ((base ≤ 1024) × (n ≤ 64)) × (length tree.old ≤ 131072) }
    ensures { Notes at stack.now base seats.now n tree.old used tree.new result }
{
    if tree.len() < used {
        return Noted {
            word: 0,
            nodes: used,
        };
    }
    let next = used + 1 + n;
    if tree.len() < next {
        return Noted {
            word: 2 * used + 1,
            nodes: next,
        };
    }
    tree[used] = at as u64;
    put_nodes(stack, base, seats, n, tree, used + 1);
    Noted {
        word: 2 * used + 1,
        nodes: next,
    }
}
