// A port of parts of src/verify.rs of metamath-rs 0.3.9 (execute_step's marks), changed (see NOTICE).
// The seats: which entry each hypothesis gets.
ghost use Rattle.std.specs.Prelude.{◌≤◌, ◌<◌, length};
ghost use Rattle.seats.specs.Marks.{labels_at, TakesSeat};
ghost use Rattle.seats.specs.Seats.{Fills, InOrder};

use crate::marks::{find_marked, hypothesis_offset, next_unmarked};
use frames::fields;

// A seat that is taken: the row of its entry, and from which row on the next unmarked entry is sought.
#[derive(Clone, Copy)]
pub struct Taken {
    pub row: usize,
    pub next: usize,
}

// The entry for the hypothesis with this label: the one that is marked so, else the next unmarked one.
fn take_seat(text: &[u8], stack: &[u64], base: usize, to: usize, next: usize, label: &[u8]) -> Taken
    requires { ((base < to) × (to < 70000)) × ((base ≤ next) × (next ≤ to)) }
    ensures { TakesSeat text.now stack.now base to next label.now result }
{
    match find_marked(text, stack, base, to, label) {
        Some(row) => Taken { row, next },
        None => match next_unmarked(stack, next, to) {
            Some(row) => Taken { row, next: row + 1 },
            None => Taken {
                row: base,
                next: to,
            },
        },
    }
}

// Fills the seats of the hypotheses of the statement at `at`, in their order.
pub fn fill_seats(
    file: &[u8],
    statements: &[u32],
    at: u32,
    text: &[u8],
    stack: &[u64],
    base: usize,
    count: usize,
    seats: &mut [u32],
)
    requires { (base ≤ 65536) × ((count ≤ 64) × (64 ≤ length seats.old)) }
    ensures { Fills (labels_at file.now statements.now at) text.now stack.now base count seats.new }
{
    let to = base + count;
    let mut next = base;
    // An index: the number of the hypothesis and the place of its seat at once, a chain would be no plainer.
    for j in 0..count {
        let o = hypothesis_offset(file, statements, at, j);
        let t = take_seat(text, stack, base, to, next, fields::label(file, o));
        let i = t.row - base;
        seats[j] = i as u32;
        next = t.next;
    }
}

// Where no entry has a mark, each goes to the hypothesis of its number.
pub fn seat_in_order(count: usize, seats: &mut [u32])
    requires { (count ≤ 64) × (64 ≤ length seats.old) }
    ensures { InOrder count seats.new }
{
    for j in 0..count {
        seats[j] = j as u32;
    }
}
