// A port of parts of src/verify.rs of metamath-rs 0.3.9 (save_step), changed (see NOTICE).
// A row more on the stack, a row more among the places, and the top of the stack saved as a place.
ghost use Rattle.std.specs.Prelude.{◌*◌, ◌≤◌, length, ◌≡◌};
ghost use Rattle.memory.specs.Shown.{Pushes, AddsPlace, SavesTop, unmarked_row};

use crate::table::{Row, put_row, row_at};
use crate::{Counts, Outcome};
use machine::Refusal;

// Puts a row over the `left` entries that stay: 45 where there is no room.
pub fn push(stack: &mut [u64], c: Counts, limit: usize, left: usize, row: Row) -> Outcome
    requires { (10 * limit ≤ length stack.old) × (limit ≤ 1024) }
    ensures { Pushes stack.old c limit left row stack.new result }
{
    if limit <= left {
        return Err(Refusal::StackFull);
    }
    put_row(stack, left, row);
    Ok(Counts {
        depth: left + 1,
        ..c
    })
}

// Puts a row into the next place: 46 where there is no room.
pub fn add_place(places: &mut [u64], c: Counts, limit: usize, row: Row) -> Outcome
    requires { (10 * limit ≤ length places.old) × (limit ≤ 4096) }
    ensures { AddsPlace places.old c limit row places.new result }
{
    let next = c.places;
    if limit <= next {
        return Err(Refusal::PlacesFull);
    }
    put_row(places, next, row);
    Ok(Counts {
        places: next + 1,
        ..c
    })
}

// The row of a place that recalls what a row of the stack proves: it has no mark.
fn saved(row: Row) -> Row
    ensures { result ≡ unmarked_row row }
{
    Row {
        tag: 0,
        end: 0,
        ..row
    }
}

// Saves the top of the stack as the next place: 23 where there is none, then 46.
pub fn save_top(stack: &[u64], places: &mut [u64], c: Counts, limit: usize) -> Outcome
    requires { ((10 * limit ≤ length places.old) × (limit ≤ 4096)) × (c.depth ≤ 1024) }
    ensures { SavesTop stack.now places.old c limit places.new result }
{
    let depth = c.depth;
    if depth == 0 {
        return Err(Refusal::ProofInvalidSave);
    }
    let row = row_at(stack, depth - 1);
    add_place(places, c, limit, saved(row))
}
