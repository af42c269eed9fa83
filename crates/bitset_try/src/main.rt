// Runs the sets of `bitset` at their limits and writes what they answer: a line for each number tried, then unions and their members.
#![tactic(auto)]

ghost use Rattle.std.specs.Prelude.{◌≡◌, true, false, ◌≤◌, ◌<◌};

use bitset::{Bitset, BitsetIter};
use replaying::Out;
use std::io::Write;

// A word for an answer, with a space after it.
fn say(answer: bool) {
    let _ = write!(Out, "{} ", if answer { "yes" } else { "no" });
}

// A number, with a space after it.
fn number(n: usize) {
    let _ = write!(Out, "{n} ");
}

// The end of a line.
fn end_line() {
    let _ = writeln!(Out);
}

// The members that are left, in the order in which they come, and the end of the line.
fn show(members: BitsetIter) {
    for n in members {
        number(n);
    }
    end_line();
}

// One number: whether it is in a new set, what replacing it twice tells, whether the set is then empty, and its members.
fn limit(n: usize) {
    let none = Bitset::new();
    let first = none.replace_bit(n);
    let one = first.set;
    let second = one.replace_bit(n);
    let two = second.set;
    number(n);
    say(none.has_bit(n));
    say(first.old);
    say(second.old);
    say(two.has_bit(n));
    say(two.is_empty());
    show(two.iter());
}

// Whether a number is a member once it was added: so where it is below BITS, and else not, whatever the set.
fn added(set: Bitset, n: usize) -> bool
    ensures below { n < Bitset.BITS → result ≡ true }
    ensures past { Bitset.BITS ≤ n → result ≡ false }
{
    let more = set.set_bit(n);
    more.has_bit(n)
}

fn main() {
    limit(0);
    limit(1);
    limit(63);
    limit(64);
    limit(127);
    limit(128);
    limit(254);
    limit(255);
    limit(256);
    limit(320);
    limit(0xffff_ffff_ffff_ffff);
    let a = Bitset::new()
        .set_bit(255)
        .set_bit(64)
        .set_bit(200)
        .set_bit(63);
    let b = Bitset::new()
        .set_bit(128)
        .set_bit(0)
        .set_bit(64)
        .set_bit(7)
        .set_bit(256);
    show(a.iter());
    show(b.iter());
    show(a.union(b).iter());
    show(b.union(a).iter());
    show(a.union(Bitset::new()).iter());
    show(Bitset::new().union(b).iter());
    show(Bitset::new().iter());
    say(Bitset::new().is_empty());
    say(Bitset::new().set_bit(255).is_empty());
    say(a.union(b).is_empty());
    say(added(a, 254));
    say(added(b, 256));
    end_line();
}
