// A port of parts of src/verify.rs of metamath-rs 0.3.9 (execute_step's marks), changed (see NOTICE).
// Which entry of the stack goes to which hypothesis of an assertion: an entry with a mark to the hypothesis that it names, the others to the rest in order.
#![tactic(auto)]

pub mod arrange;
pub mod marks;

ghost use Rattle.std.specs.Prelude.{◌≤◌, length};
ghost use Rattle.seats.specs.Seats.{Seats};

use crate::arrange::{fill_seats, seat_in_order};
use crate::marks::{check_marks, none_marked};
use machine::Refusal;

// Seats the `count` entries from row `base` on: 33 and 34, from the bottom up, else each seat gets the number of its entry, counted from 0.
pub fn seat_entries(
    file: &[u8],
    statements: &[u32],
    at: u32,
    text: &[u8],
    stack: &[u64],
    base: usize,
    count: usize,
    seats: &mut [u32],
) -> Result<(), Refusal>
    requires { (base ≤ 65536) × ((count ≤ 64) × (64 ≤ length seats.old)) }
    ensures { Seats file.now statements.now at text.now stack.now base count seats.new result }
{
    if none_marked(stack, base, base + count) {
        seat_in_order(count, seats);
        return Ok(());
    }
    check_marks(file, statements, at, text, stack, base, base + count)?;
    fill_seats(file, statements, at, text, stack, base, count, seats);
    Ok(())
}
