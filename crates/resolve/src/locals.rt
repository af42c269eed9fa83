// A port of parts of src/verify.rs of metamath-rs 0.3.9 (the local labels of a packed proof), changed (see NOTICE).
// The table of local labels: three words each, where its label begins and ends in the text, and its place.
ghost use Rattle.std.specs.Prelude.{◌≡◌, ◌<◌, ◌≤◌, ◌+◌, ◌*◌, length};
ghost use Rattle.machine.specs.Memory.{place_of};
ghost use Rattle.packed.specs.Pool.{range};
ghost use Rattle.resolve.specs.Locals.{local_at, locals_of, place_found, AddsLocal};

use frames::numbers::PlaceNo;
use frames::read::part;
use frames::refer::entry;
use frames::text::same_bytes;

// The bytes of a text from `from` up to `to`.
pub fn between(text: &[u8], from: u32, to: u32) -> &[u8]
    ensures { result.now ≡ range from to text.now }
{
    if from <= to {
        return part(text, from as usize, (to - from) as usize);
    }
    part(text, from as usize, 0)
}

// The i-th local label.
fn local_at<'a>(text: &'a [u8], locals: &[u32], i: usize) -> &'a [u8]
    requires { i < 4096 }
    ensures { result.now ≡ (local_at text.now locals.now i).0 }
{
    between(text, entry(locals, 3 * i), entry(locals, 3 * i + 1))
}

// The place of a local label, among the first `count` of the table.
pub fn find_local(text: &[u8], locals: &[u32], count: usize, label: &[u8]) -> Option<PlaceNo>
    requires { count ≤ 4096 }
    ensures { place_of label.now (locals_of text.now locals.now count) ≡ place_found result }
{
    for i in 0..count {
        if same_bytes(local_at(text, locals, i), label) {
            return Some(PlaceNo(entry(locals, 3 * i + 2) as usize));
        }
    }
    None
}

// Lays a local label after the first `count`: where it begins and ends in the text, and its place.
pub fn add_local(locals: &mut [u32], count: usize, from: u32, to: u32, place: u32)
    requires { 3 * count + 3 ≤ length locals.old }
    ensures { AddsLocal locals.old count from to place locals.new }
{
    locals[3 * count] = from;
    locals[3 * count + 1] = to;
    locals[3 * count + 2] = place;
}
