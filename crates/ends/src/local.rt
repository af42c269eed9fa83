// A port of parts of src/verify.rs of metamath-rs 0.3.9 (the local labels in verify_proof), changed (see NOTICE).
// The local label of a normal step: it stands for the place that the step's result takes.
ghost use Rattle.std.specs.Prelude.{◌*◌, ◌≤◌, ◌<◌, length};
ghost use Rattle.ends.specs.Local.{LaysLocal, SavesLabelled, GivesLocal};

use machine::Refusal;
use memory::stack::save_top;
use memory::{Counts, Outcome};
use resolve::locals::{add_local, between, find_local};

// Lays the local label with the next place, where the table has room: where it has none, no place is left either.
fn lay_local(locals: &mut [u32], c: Counts, from: u32, to: u32)
    requires { (12288 ≤ length locals.old) × (c.places ≤ 4096) }
    ensures { LaysLocal locals.old c from to locals.new }
{
    let count = c.locals;
    if count < 4096 {
        add_local(locals, count, from, to, c.places as u32);
    }
}

// Saves the top as the place of one more local label: 23, 46.
fn save_labelled(stack: &[u64], places: &mut [u64], c: Counts, limit: usize) -> Outcome
    requires { ((10 * limit ≤ length places.old) × (limit ≤ 4096)) × ((c.depth ≤ 1024) × (c.locals ≤ 4096)) }
    ensures { SavesLabelled stack.now places.old c limit places.new result }
{
    let now = save_top(stack, places, c, limit)?;
    Ok(Counts {
        locals: c.locals + 1,
        ..now
    })
}

// After a step: the local label from `from` up to `to` in the text is 27 where there is one of the same bytes, else the top is saved as its place.
pub fn give_local(
    text: &[u8],
    from: usize,
    to: usize,
    stack: &[u64],
    locals: &mut [u32],
    places: &mut [u64],
    c: Counts,
    limit: usize,
) -> Outcome
    requires limit_in_bounds { ((10 * limit ≤ length places.old) × (limit ≤ 4096)) × ((12288 ≤ length locals.old) × (c.depth ≤ 1024)) }
    requires counted { (c.locals ≤ c.places) × (c.places ≤ limit) }
    requires within { (from < 4294967296) × (to < 4294967296) }
    ensures { GivesLocal text.now from to stack.now locals.old places.old c limit locals.new places.new result }
{
    let begins = from as u32;
    let ends = to as u32;
    let count = c.locals;
    if find_local(text, locals, count, between(text, begins, ends)).is_some() {
        return Err(Refusal::LocalLabelDuplicate);
    }
    lay_local(locals, c, begins, ends);
    save_labelled(stack, places, c, limit)
}
